//! Reads a text at the front of an input.
//!
//! `specs/Text` defines what such a text says: a problem, or the first line that is refused. `specs/TextRead` defines
//! which bytes of a source are read for it, and `specs/Taken` which bytes of an input are taken if it is read by lines.
#![tactic(auto)]

mod problem;
mod text;

pub use problem::{FileTask, Problem, Task, WholeText};
pub use text::{LineWhy, TextEnd, read_problem, read_text};
