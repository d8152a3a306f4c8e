//! Fewer states: what one pass of merging leaves is minimized if equivalent states may remain.
//! `settling` minimizes or compacts an automaton over classes, `merge_states` merges the states of an automaton, and `merged` has the
//! product of two automata, which is merged as it is built.
#![tactic(auto)]

mod merge_states;
mod merged;
mod settling;

pub use merge_states::merge;
pub use merged::merged_product_within;
