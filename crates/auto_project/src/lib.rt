//! Computes projections: existential quantification of one integer of any size.
//! The result accepts a word if and only if the operand accepts a lift of it: a word with one more track that, without this track,
//! is the word with its first letter repeated. States are sets of states (subset construction, Rabin and Scott 1959), and the first
//! row is closed under sign extension.
//! `specs/Lifted` defines the states that lifts reach, `specs/Subsets` the walk over sets, `specs/SetMaps` its rows, and
//! `specs/Placed` how rows map to numbered sets.
#![tactic(auto)]

mod closure;
mod join;
mod placing;
mod projection;
mod rows;
mod sets;
mod subsets;

pub use projection::{forget, forget_within};
