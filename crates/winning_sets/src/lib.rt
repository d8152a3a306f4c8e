//! Computes the sets of positions from which the winner mates within n moves.
//!
//! The sets are automata over the coordinates of the live men. `specs/Reach` and `specs/Kept` define which positions
//! the sets contain, and `specs/Solve` the results.
#![tactic(auto)]

mod claimed;
mod empty;
mod kept;
pub mod laws;
mod lent;
mod names;
mod origin;
mod place;
mod ply_sets;
mod solved;
mod solver;
mod stock;
mod turns;

pub use claimed::ClaimedSets;
pub use mate_plan::{Part, PartName};
pub use names::{SolveError, StepName};
pub use origin::Origin;
pub use place::set_at;
pub use ply_sets::PlySets;
pub use solved::Solved;
pub use solver::{Solver, solve};
