//! Computes the coarsest partition of an automaton's states that respects flags and rows.
//! This is partition refinement by rounds of splits (Moore 1956); `specs/Coarsest` defines the result and `partition` has the
//! rounds. A round maps rows to classes (`leading`, `stale`), and moves the states whose rows differ from the row of their class's
//! representative (`moves`, `signatures`). Lists of the states of each class are kept (`listing`).
#![tactic(auto)]

mod classes;
pub mod laws;
mod leading;
mod listing;
mod moves;
mod partition;
mod put;
mod round_memo;
mod rows;
mod signatures;
mod stale;

pub use classes::{Partition, members};
pub use leading::{ByTable, mapped_nodes};
pub use partition::coarsest;
pub use round_memo::RoundMemo;
pub use rows::{flags, picked};
