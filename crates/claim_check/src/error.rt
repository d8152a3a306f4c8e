//! Why a claim is not accepted.
ghost use Rattle.std.specs.Prelude.{◌≡◌};
ghost use Rattle.claim_check.specs.Check.{IsErrorFor};

use claim_plan::RuleAt;
use mate_plan::PartName;
use set_plan::PlanError;
use std::alloc::AllocError;
use winning_sets::StepName;

/// Why a claim is not accepted.
#[derive(Clone, Copy, PartialEq, Eq)]
pub enum CheckError {
    /// The first rule that the claim does not keep.
    NotKept(RuleAt),
    /// The first step of the claim's plan that exceeds the budget.
    Over(StepName),
    /// Memory ran out.
    Memory,
}

impl From<AllocError> for CheckError {
    ghost use Rattle.claim_check.specs.declared.error.CheckError.TheVariants.{Memory};

    ghost from_gives = { λ _ e. e ≡ Memory };

    fn from(_: AllocError) -> Self {
        CheckError::Memory
    }
}

/// Returns the error of a check, from the error of the plan for this number of moves.
pub(crate) fn check_error(moves: u8, error: PlanError<PartName>) -> CheckError
    ensures { IsErrorFor moves error result }
{
    match error {
        PlanError::Over(name) => CheckError::Over(StepName {
            moves,
            ply: name.part.ply,
            mask: name.part.mask,
            part: name.part.part,
            at: name.at,
        }),
        PlanError::Memory => CheckError::Memory,
    }
}
