//! The commands `play`, `resume` and `defend`, which play games against moves from the input.
//!
//! Each has a file under `specs` that defines what is reported of it.
#![tactic(auto)]

pub mod defend;
pub mod play;
pub mod resume;
