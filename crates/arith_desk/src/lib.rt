//! Parses and decides closed formulas over the integers, typed as a line of fields.
//! `specs/Typed` defines the formulas, their spelling and their meaning, `specs/Stops` the first field of another line that is not
//! allowed at its position, and `specs/Truth` the result for a formula.
#![tactic(auto)]

mod building;
mod deciding;
mod errors;
mod fields;
pub mod laws;
mod reading;
mod slots;
mod words;

pub use deciding::{Truth, decide_closed};
pub use errors::ArithError;
pub use reading::read_formula;
