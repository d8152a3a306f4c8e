//! A row: its fields, and its output.

ghost use Rattle.std.specs.Prelude.{◌≡◌, ◌↔◌, [], None, Err, IsTrue, IsOkAnd, IfNone, IfSome, unwrap_or};
ghost use Rattle.trial_rows.specs.Fields.{IsNextField};

use crate::answer::Answer;
use crate::errors::RowError;
use crate::fields::{Fields, number, numbers};
use limits::Budget;
use std::alloc::Global;
use std::fmt::Display;
use std::num::ParseIntError;
use std::str::FromStr;

/// A row, with the fields that are not read yet and the output so far.
#[derive(Drop)]
pub struct Row<'a> {
    pub alloc: Global,
    pub fields: Fields<'a>,
    pub answer: Answer,
}

impl<'a> Row<'a> {
    /// Creates a row with an empty output.
    pub fn new(alloc: Global, text: &'a str) -> Self {
        Row {
            alloc,
            fields: Fields::new(text),
            answer: Answer::new(alloc),
        }
    }

    /// Returns the next field.
    pub fn word(&mut self) -> Result<&'a str, RowError>
        ensures missing { IfNone self.old.fields ((result ≡ Err RowError.Missing) × (self.new.fields ≡ None)) }
        ensures next { IfSome self.old.fields (λ text. IsOkAnd result (λ field. IsNextField text field.now self.new.fields)) }
    {
        self.fields.word()
    }

    /// Returns the remaining text unchanged, and leaves no field.
    pub fn rest(&mut self) -> &'a str
        ensures text { result.now ≡ unwrap_or self.old.fields [] }
        ensures done { self.new.fields ≡ None }
    {
        self.fields.rest()
    }

    /// Returns whether no field is left.
    pub fn is_done(&self) -> bool
        ensures { IsTrue result ↔ (self.now.fields ≡ None) }
    {
        self.fields.is_done()
    }

    /// Parses the next field as a number.
    pub fn number<T: FromStr<Err = ParseIntError>>(&mut self) -> Result<T, RowError> {
        number(self.fields.word()?)
    }

    /// Parses the next two fields as numbers.
    pub fn two_numbers<A, B>(&mut self) -> Result<(A, B), RowError>
    where
        A: FromStr<Err = ParseIntError> + Drop,
        B: FromStr<Err = ParseIntError>,
    {
        let first = self.number()?;
        Ok((first, self.number()?))
    }

    /// Parses the next three fields as numbers.
    pub fn three_numbers<A, B, C>(&mut self) -> Result<(A, B, C), RowError>
    where
        A: FromStr<Err = ParseIntError> + Drop,
        B: FromStr<Err = ParseIntError> + Drop,
        C: FromStr<Err = ParseIntError>,
    {
        let (first, second) = self.two_numbers()?;
        Ok((first, second, self.number()?))
    }

    /// Parses the next field as numbers separated by commas. The field `-` has none.
    pub fn numbers<T: FromStr<Err = ParseIntError> + Drop>(&mut self) -> Result<Vec<T>, RowError> {
        numbers(self.alloc, self.fields.word()?)
    }

    /// Parses the next field as a budget, from 1 to 16777216 states.
    pub fn budget(&mut self) -> Result<Budget, RowError> {
        Budget::checked(self.number()?).ok_or(RowError::Number)
    }

    /// Appends the text to the output.
    pub fn write(&mut self, text: &str) {
        self.answer.write(text);
    }

    /// Appends the character to the output.
    pub fn write_mark(&mut self, mark: char) {
        self.answer.write_mark(mark);
    }

    /// Appends the number in decimal to the output.
    pub fn write_number<N: Display + Copy>(&mut self, number: N) {
        self.answer.write_number(number);
    }

    /// Appends a label and a number.
    pub fn write_labelled<N: Display + Copy>(&mut self, label: &str, number: N) {
        self.answer.write(label);
        self.answer.write_number(number);
    }

    /// Appends `yes` or `no`.
    pub fn write_truth(&mut self, truth: bool) {
        self.answer.write(if truth { "yes" } else { "no" });
    }

    /// Appends the mark, unless `place` is 0: the separator before each part but the first.
    pub fn separate(&mut self, place: usize, mark: char) {
        if place > 0 {
            self.answer.write_mark(mark);
        }
    }

    /// Appends the mark, unless the output is empty.
    pub fn part(&mut self, mark: char) {
        if !self.answer.is_empty() {
            self.answer.write_mark(mark);
        }
    }

    /// Appends numbers, with the mark between any two.
    pub fn write_numbers<N: Display + Copy>(&mut self, numbers: &[N], mark: char) {
        for (place, number) in numbers.iter().enumerate() {
            self.separate(place, mark);
            self.write_number(*number);
        }
    }

    /// Appends bytes, each as a character.
    pub fn write_bytes(&mut self, bytes: &[u8]) {
        for byte in bytes {
            self.answer.write_mark(*byte as char);
        }
    }
}
