//! Splits a text at a blank, and reads decimal numbers.
#![tactic(auto)]

mod fields;
mod numbers;

pub use fields::split_at_blank;
pub use numbers::read_number;
