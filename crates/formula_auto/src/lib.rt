//! Compiles formulas to automata, step by step and within a budget (Büchi 1960).
//! Three caches save work: one of set-free subformulas (`Memo`), a lossy one of short subformulas, and one of conjunctions of two
//! named sets within one union (`MeetTable`). `specs/Decides` defines when an automaton decides a formula, and `specs/Step` how
//! many states a step needs, by the meanings of its parts. `specs/PlainParts` has the subformulas that are cached,
//! `specs/MemoState` how the cache changes, and `specs/MeetState` what is stored for one table of sets.
#![tactic(auto)]

mod chain;
mod chaining;
mod compiling;
mod entry;
mod errors;
mod hash;
mod joint;
mod meet_table;
mod memo;
mod pair;
mod part_auto;
mod plain;
mod short_table;
mod shortcut;
mod standing;
mod steps;
mod table;

pub use compiling::compile;
pub use errors::CompileError;
pub use meet_table::MeetTable;
pub use memo::Memo;
pub use table::SetTable;
