//! The laws by which sets of positions decide for every number of moves: where one more move wins nothing more, tables of lost
//! positions, refuges, ranks that fall, and translations of the board that bring a king to 0 0. `specs/Laws.antt` states them.
#![tactic(auto)]

pub mod laws;
mod sets;

pub use sets::{PositionSet, PositionSets};
