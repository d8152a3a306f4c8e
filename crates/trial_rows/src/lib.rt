//! Shared code of the test programs that read a script of rows.
//!
//! A row is a test case: a word for its kind, and fields, separated by one space each. A program reads the rows from
//! the standard input, makes the call that each row names, and writes the result.
#![tactic(auto)]

mod answer;
mod errors;
mod fields;
mod named;
mod row;
mod script;

pub use answer::Answer;
pub use errors::RowError;
pub use fields::{Fields, number, numbers};
pub use named::Named;
pub use row::Row;
pub use script::{RowInterpreter, answer_script, answer_steps, is_told};
