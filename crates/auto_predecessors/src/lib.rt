//! Finds the predecessors of a set of states.
//! Predecessor lists over the nodes that rows share lead from states back to the rows that reach them. `specs/Ways` defines these
//! lists.
#![tactic(auto)]

mod rows;
mod ways;

pub use rows::row_nodes;
pub use ways::{Predecessors, predecessors_of, row_predecessors};
