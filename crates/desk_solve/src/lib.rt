//! The commands `decide`, `least`, `first` and `drill`.
//!
//! Each has a file under `specs` that defines what is reported of it.
#![tactic(auto)]

pub mod decide;
pub mod drill;
mod drill_positions;
pub mod first;
pub mod least;
