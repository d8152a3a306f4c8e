//! The output of a row.

use crate::errors::RowError;
use std::alloc::Global;
use std::fmt::Display;

/// The output of a row so far. It is lost if an allocation fails for a part of it.
#[derive(Drop)]
pub struct Answer {
    text: String,
    is_lost: bool,
}

impl Answer {
    /// Creates an empty output.
    pub fn new(alloc: Global) -> Self {
        Answer {
            text: String::new(alloc),
            is_lost: false,
        }
    }

    /// Returns the text, unless a part of it is lost.
    pub fn text(&self) -> Result<&str, RowError> {
        if self.is_lost {
            return Err(RowError::Memory);
        }
        Ok(self.text.as_str())
    }

    /// Returns whether nothing has been written.
    pub fn is_empty(&self) -> bool {
        self.text.is_empty()
    }

    /// Appends the text.
    pub fn write(&mut self, text: &str) {
        if self.text.push_str(text).is_err() {
            self.is_lost = true;
        }
    }

    /// Appends the character.
    pub fn write_mark(&mut self, mark: char) {
        if self.text.push(mark).is_err() {
            self.is_lost = true;
        }
    }

    /// Appends the number in decimal.
    pub fn write_number<N: Display + Copy>(&mut self, number: N) {
        if write!(self.text, "{number}").is_err() {
            self.is_lost = true;
        }
    }
}
