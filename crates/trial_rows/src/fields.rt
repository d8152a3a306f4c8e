//! The fields of a row.

ghost use Rattle.std.specs.Prelude.{◌≡◌, ◌↔◌, [], Some, None, Ok, Err, IsTrue, IsOk, IsOkAnd, IfErr, IfNone, IfOk, IfSome, MatchOption, OnErr, unwrap_or};
ghost use Rattle.trial_rows.specs.Fields.{IsNextField};

use crate::errors::RowError;
use std::alloc::Global;
use std::marker::Model;
use std::num::ParseIntError;
use std::str::FromStr;

/// The fields that are not read yet, separated by one space each.
#[derive(Drop)]
pub struct Fields<'a> {
    rest: Option<&'a str>,
}

impl<'a> Model for Fields<'a> {
    ghost use Rattle.std.specs.Prelude.{ℕ, List, Option, option_copied};

    ghost Value = { Option (List ℕ) };

    ghost view = { λ fields. option_copied fields.rest };
}

impl<'a> Fields<'a> {
    /// Creates the fields of a row.
    pub fn new(row: &'a str) -> Self
        ensures { result ≡ Some row.now }
    {
        Fields { rest: Some(row) }
    }

    /// Returns the next field. The error is that there is none.
    pub fn word(&mut self) -> Result<&'a str, RowError>
        ensures missing { IfNone self.old ((result ≡ Err RowError.Missing) × (self.new ≡ None)) }
        ensures next { IfSome self.old (λ text. IsOkAnd result (λ field. IsNextField text field.now self.new)) }
    {
        let Some(text) = self.rest else {
            return Err(RowError::Missing);
        };
        match text.split_once(' ') {
            Some((field, rest)) => {
                self.rest = Some(rest);
                Ok(field)
            }
            None => {
                self.rest = None;
                Ok(text)
            }
        }
    }

    /// Returns the remaining text unchanged, and leaves no field.
    pub fn rest(&mut self) -> &'a str
        ensures text { result.now ≡ unwrap_or self.old [] }
        ensures done { self.new ≡ None }
    {
        self.rest.take().unwrap_or("")
    }

    /// Returns whether no field is left.
    pub fn is_done(&self) -> bool
        ensures { IsTrue result ↔ (self.now ≡ None) }
    {
        self.rest.is_none()
    }

    /// Returns an error if fields are left.
    pub fn end(&self) -> Result<(), RowError>
        ensures { MatchOption self.now (IsOk result) (λ _. result ≡ Err RowError.Rest) }
    {
        match self.rest {
            None => Ok(()),
            Some(_) => Err(RowError::Rest),
        }
    }
}

/// Parses the number that a field spells.
pub fn number<T: FromStr<Err = ParseIntError>>(field: &str) -> Result<T, RowError>
    ensures ok { IfOk result (λ number. T.from_str_gives field.now (Ok number)) }
    ensures refused { OnErr result ((error : ParseIntError) × T.from_str_gives field.now (Err error)) }
    ensures why { IfErr result (λ why. why ≡ RowError.Number) }
{
    match field.parse::<T>() {
        Ok(number) => Ok(number),
        Err(_) => Err(RowError::Number),
    }
}

/// Parses numbers separated by commas. The text `-` has none.
pub fn numbers<T: FromStr<Err = ParseIntError> + Drop>(
    alloc: Global,
    text: &str,
) -> Result<Vec<T>, RowError> {
    if text == "-" {
        return Ok(Vec::new(alloc));
    }
    let mut list = Vec::new(alloc);
    for part in text.split(',') {
        list.push(number(part)?)?;
    }
    Ok(list)
}
