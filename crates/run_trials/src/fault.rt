//! Why a script is not performed to its end.

use std::alloc::{AllocError, AllocFailed};
use trial_rows::RowError;

/// Why a line of a script cannot be read or performed.
#[derive(Clone, Copy)]
pub enum ScriptWhy {
    /// It has more than 200 bytes.
    Long,
    /// The script ends within it.
    Cut,
    /// A word of it, or what a run wrote, is not UTF-8.
    NotText,
    /// It has no form of a line.
    Unknown,
    /// A word that is to be a number is none, or too large or too small a one.
    Number,
    /// A range of numbers is none, or a second one of the same run.
    Range,
    /// A backslash begins no escape.
    Escape,
    /// No text before has this name.
    NoText,
    /// A text before has this name.
    Taken,
    /// The store has no file of this name.
    NoFile,
    /// Bytes or a setting belong to no text and no run.
    Stray,
    /// The bytes that are to be changed have no such place.
    Outside,
    /// There is no memory for it.
    Memory,
}

impl ScriptWhy {
    /// Returns the words for it in the line that reports it.
    pub fn words(self) -> &'static str {
        match self {
            ScriptWhy::Long => "long",
            ScriptWhy::Cut => "cut",
            ScriptWhy::NotText => "not UTF-8",
            ScriptWhy::Unknown => "unknown",
            ScriptWhy::Number => "number",
            ScriptWhy::Range => "range",
            ScriptWhy::Escape => "escape",
            ScriptWhy::NoText => "no text",
            ScriptWhy::Taken => "second text of this name",
            ScriptWhy::NoFile => "no file",
            ScriptWhy::Stray => "stray",
            ScriptWhy::Outside => "outside",
            ScriptWhy::Memory => "memory",
        }
    }
}

impl From<AllocError> for ScriptWhy {
    fn from(_error: AllocError) -> Self {
        ScriptWhy::Memory
    }
}

impl<T: Drop> From<AllocFailed<T>> for ScriptWhy {
    fn from(_error: AllocFailed<T>) -> Self {
        ScriptWhy::Memory
    }
}

impl From<RowError> for ScriptWhy {
    fn from(_error: RowError) -> Self {
        ScriptWhy::Memory
    }
}
