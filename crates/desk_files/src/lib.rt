//! The commands `keep`, `check` and `migrate`, which write and read strategy files.
//!
//! Each has a file under `specs` that defines what is reported of it. `specs/FileClaim` defines the result of reading a
//! file, and `specs/Keeping` that of storing one.
#![tactic(auto)]

pub mod check;
mod file_claim;
mod file_line;
pub mod keep;
pub mod migrate;
mod no_file;

pub use file_claim::{NoClaim, fetch_claim, refuse_file};
