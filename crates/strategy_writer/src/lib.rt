//! Writes strategy files: the bytes of a claim, and the claim of a solved position.
//!
//! `specs/Written` and `specs/SharedWritten` define the bytes of versions 1 and 2, and `specs/SolvedFile` the claim of
//! a solved position.
#![tactic(auto)]

mod kept;
mod kept_claim;
mod largest;
pub mod laws;
mod writing;
mod writing_shared;

pub use writing::{WriteFileError, write_claim, write_file, write_file_1};
