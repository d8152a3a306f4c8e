//! Connects `mate_desk::run` to the standard library: readers, writers and the working folder.
//!
//! A reader becomes a source, a writer a sink, and the files of the working folder a store. `perform_in_memory` does
//! the same over bytes in memory, where no port fails.
#![tactic(auto)]

mod folder;
mod program;
mod standard;

pub use folder::FolderShelf;
pub use program::{Ran, WordsError, exit_of, perform, perform_in_memory};
pub use standard::{StdSink, StdSource};
