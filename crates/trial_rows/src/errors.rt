//! Why a row has no result.

ghost use Rattle.std.specs.Prelude.{◌≡◌};
ghost use Rattle.trial_rows.specs.declared.errors.RowError.TheVariants.{Memory};

use std::alloc::{AllocError, AllocFailed};

/// Why a row has no result.
#[derive(Clone, Copy)]
pub enum RowError {
    /// The leading word names no kind of row.
    Kind,
    /// A field is missing.
    Missing,
    /// Fields are left after the last one.
    Rest,
    /// A field is not one of the words that are allowed there.
    Word,
    /// A field is not a number, or the number exceeds its limit.
    Number,
    /// Nothing has the name.
    Name,
    /// An expression is nested too deeply.
    Deep,
    /// The call has a condition that the row does not meet.
    Condition,
    /// A step exceeds the budget in a row that needs its result.
    Over,
    /// Memory ran out.
    Memory,
}

impl RowError {
    /// Returns the word for it in the line that reports it.
    pub fn word(self) -> &'static str {
        match self {
            RowError::Kind => "kind",
            RowError::Missing => "missing",
            RowError::Rest => "rest",
            RowError::Word => "word",
            RowError::Number => "number",
            RowError::Name => "name",
            RowError::Deep => "deep",
            RowError::Condition => "condition",
            RowError::Over => "over",
            RowError::Memory => "memory",
        }
    }
}

impl From<AllocError> for RowError {
    ghost from_gives = { λ _ why. why ≡ Memory };

    fn from(_error: AllocError) -> Self {
        RowError::Memory
    }
}

impl<T: Drop> From<AllocFailed<T>> for RowError {
    ghost from_gives = { λ _ why. why ≡ Memory };

    fn from(_error: AllocFailed<T>) -> Self {
        RowError::Memory
    }
}
