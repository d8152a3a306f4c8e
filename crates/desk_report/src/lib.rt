//! Defines the report of a run, and how faults of its ports change it.
//!
//! A report is a status, a text and one fault line (`specs/FaultLines`). `specs/Outcome` defines how a run may end
//! differently if its source, sink or file store fails, or if memory runs out.
#![tactic(auto)]

mod fault_line;
mod output;
mod status;

pub use fault_line::{push_large, refusal_line, refuse, unsound_line};
pub use output::print;
pub use status::Status;
