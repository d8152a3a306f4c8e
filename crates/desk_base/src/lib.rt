//! Traits for input, output and files, in-memory versions of them, and a line reader.
//!
//! A [`Source`] is read from, a [`Sink`] is written to, and a [`Shelf`] is a store of files by name. Contracts speak of
//! their bytes, so the operating system stays behind a thin layer.
//!
//! Each object counts its faults. A call returns `Failed` only if that count has risen or is at its greatest value.
//! Slices and in-memory files have no such count and do not fail.
#![tactic(auto)]

mod buffer;
mod calls;
mod files;
pub mod laws;
mod line;
mod mem_files;
mod mem_shelf;
mod mem_sink;
mod mem_source;
mod reader;
mod scan;
mod sink;
mod slice_source;
mod source;

pub use files::{FetchError, KeepError, Shelf};
pub use line::{Line, LineError};
pub use mem_files::MemFiles;
pub use mem_shelf::MemShelf;
pub use mem_sink::MemSink;
pub use mem_source::MemSource;
pub use reader::LineReader;
pub use sink::{Sink, put_all};
pub use source::{Failed, Source};
