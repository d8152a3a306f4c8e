//! Defines the program's limits: a type for budgets, and a constant for each other limit.
#![tactic(auto)]

mod budget;
mod numbers;

pub use budget::Budget;
pub use numbers::{MOST_FILE_BYTES, MOST_LINE_BYTES, MOST_MOVES, MOST_STATES, MOST_TRACKS};
