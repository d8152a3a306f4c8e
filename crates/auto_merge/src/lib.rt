//! Merges equivalent states in one pass over the rows: states with equal successor classes.
//! The rows are those of an automaton, or of any source that maps letters to places; places are merged as they are discovered.
//! `auto_minimize` minimizes the result if cycles through several states remain.
//! `rows` defines sources of rows, and `keys` rows mapped to classes. `merging` assigns classes by keys, and `joining` decides
//! which may be shared. `visits` maps rows, and visits places without a class in nested visits; `walk` continues iteratively if the
//! nesting is too deep. `class_states` builds the automaton over the classes, and `state_rows` has the rows of an automaton.
#![tactic(auto)]

mod class_states;
mod joining;
mod keys;
mod merging;
mod rows;
mod state_rows;
mod visits;
mod walk;

pub use class_states::{Once, merge_places};
pub use rows::{Key, Look, RowSource};
pub use state_rows::AutomatonRows;
