//! Errors of compiling.
ghost use Rattle.std.specs.Prelude.{◌≡◌};
ghost use Rattle.formula_auto.specs.declared.errors.CompileError.TheVariants.{Memory};
ghost use Rattle.formula_auto.specs.StepError.{step_error};

use auto_walk::Grown;
use std::alloc::AllocError;

/// Why a formula has no automaton.
#[derive(Clone, Copy, PartialEq, Eq)]
pub enum CompileError {
    /// The step with this number, counted from 1 in post-order, is the first that needs more states than the budget.
    Over { step: u32 },
    /// An allocation failed.
    Memory,
}

impl CompileError {
    /// Returns the error of the step with this number.
    pub(crate) fn at(step: u32, why: Grown) -> CompileError
        ensures { result ≡ step_error step why }
    {
        match why {
            Grown::Over => CompileError::Over { step },
            Grown::Memory => CompileError::Memory,
        }
    }
}

impl From<AllocError> for CompileError {
    ghost from_gives = { λ _ why. why ≡ Memory };

    fn from(_: AllocError) -> Self {
        CompileError::Memory
    }
}
