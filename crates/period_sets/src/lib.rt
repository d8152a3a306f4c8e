//! Describes sets of integers that repeat from some number on.
//! Returns the least period, the start of the repetition, and the positive numbers in the set. `specs/Period` defines periods, runs
//! and residues, and `specs/Question` the formulas that test periods.
#![tactic(auto)]

mod description;
mod errors;
mod formulas;
pub mod laws;
mod period;
mod periodic;
mod rests;
mod runs;

pub use description::describe_set;
pub use errors::PeriodError;
pub use periodic::{Periodic, Run};
