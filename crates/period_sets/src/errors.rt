//! Errors of descriptions.
ghost use Rattle.std.specs.Prelude.{◌≡◌};
ghost use Rattle.period_sets.specs.declared.errors.PeriodError.TheVariants.{Memory};

use std::alloc::AllocError;

/// Why a set has no description.
#[derive(Clone, Copy)]
pub enum PeriodError {
    /// The step with this number, counted from 1 through the formulas of the tried periods, is the first that needs more states
    /// than the budget.
    Over { step: u32 },
    /// No number up to `MOST_PERIOD` is a period.
    NoPeriod,
    /// The set repeats only from a number beyond 2^100 on.
    Far,
    /// There are more than `MOST_RUNS` runs below the start of the repetition.
    Many,
    /// An allocation failed.
    Memory,
}

impl From<AllocError> for PeriodError {
    ghost from_gives = { λ _ why. why ≡ Memory };

    fn from(_: AllocError) -> Self {
        PeriodError::Memory
    }
}
