//! Names of steps, and the reasons for failure.

ghost use Rattle.std.specs.Prelude.{◌≡◌};
ghost use Rattle.winning_sets.specs.Solve.{solve_error_of};

use mate_plan::{Part, PartName};
use set_plan::PlanError;

/// The name of a step of a plan.
#[derive(Clone, Copy, PartialEq, Eq)]
pub struct StepName {
    /// The number of moves of the winner of the plan.
    pub moves: u8,
    /// The number of moves made since the starting position.
    pub ply: u8,
    /// The live men: bit `i - 1` is 1 if and only if man `i` is live.
    pub mask: u8,
    pub part: Part,
    /// The number of the step in its part, counted from 1.
    pub at: u32,
}

/// Why a position is not solved.
#[derive(Clone, Copy, PartialEq, Eq)]
pub enum SolveError {
    /// The first step of the plan that exceeds the budget.
    Over(StepName),
    /// Memory ran out.
    Memory,
}

/// Returns the error of the plan for this number of moves.
pub(crate) fn solve_error(moves: u8, error: PlanError<PartName>) -> SolveError
    ensures { result ≡ solve_error_of moves error }
{
    match error {
        PlanError::Over(name) => SolveError::Over(StepName {
            moves,
            ply: name.part.ply,
            mask: name.part.mask,
            part: name.part.part,
            at: name.at,
        }),
        PlanError::Memory => SolveError::Memory,
    }
}
