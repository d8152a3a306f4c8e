//! Errors of parsing.
ghost use Rattle.std.specs.Prelude.{◌≡◌};
ghost use Rattle.arith_desk.specs.declared.errors.ArithError.TheVariants as arith_error;
ghost use Rattle.arith_desk.specs.declared.errors.Stop.TheVariants as stops;

use std::alloc::AllocError;

/// Why a line is not a formula.
#[derive(Clone, Copy, PartialEq, Eq)]
pub enum ArithError {
    /// The field with this number, counted from 1, is the first that is not allowed at its position. If fields are missing, it is
    /// the number of fields plus one.
    Field(u32),
    /// An allocation failed.
    Memory,
}

impl From<AllocError> for ArithError {
    ghost from_gives = { λ _ why. why ≡ arith_error.Memory };

    fn from(_: AllocError) -> Self {
        ArithError::Memory
    }
}

/// Why parsing stopped.
#[derive(Clone, Copy, PartialEq, Eq)]
pub enum Stop {
    /// A field is not allowed at its position. The number of fields from it on, including it, or 0 if fields are missing.
    Left(usize),
    /// An allocation failed.
    Memory,
}

impl From<AllocError> for Stop {
    ghost from_gives = { λ _ why. why ≡ stops.Memory };

    fn from(_: AllocError) -> Self {
        Stop::Memory
    }
}
