//! Errors of numbering.
use std::alloc::AllocError;

/// The reason why a set or a pair got no number.
#[derive(Drop, PartialEq)]
pub enum NumberingError {
    /// It is new, and 2^32 - 1 numbers are in use.
    Full,
    Memory,
}

impl From<AllocError> for NumberingError {
    ghost use Rattle.std.specs.Prelude.{◌≡◌};
    ghost use Rattle.letter_diagram.specs.declared.numbering.NumberingError.TheVariants.{Memory};

    ghost from_gives = { λ _ e. e ≡ Memory };

    fn from(_refused: AllocError) -> NumberingError {
        NumberingError::Memory
    }
}
