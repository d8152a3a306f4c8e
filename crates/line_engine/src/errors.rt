//! Why there is no verdict.

ghost use Rattle.line_engine.specs.declared.errors.CrowdError.TheVariants.{Memory};
ghost use Rattle.std.specs.Prelude.{◌≡◌};

use std::alloc::AllocError;

/// Why there is no verdict.
#[derive(Clone, Copy, PartialEq, Eq)]
pub enum CrowdError {
    /// The first step of the plan whose spread exceeds the budget, counted from 1.
    Over { step: u128 },
    /// Memory ran out.
    Memory,
}

impl From<AllocError> for CrowdError {
    ghost from_gives = { λ _ e. e ≡ Memory };

    fn from(_: AllocError) -> Self {
        CrowdError::Memory
    }
}
