//! Represents a set of positions as one automaton for each mask of live men.
//! A position is in the set if the automaton of its own mask accepts the coordinates of its live men. `specs/Sets` defines
//! membership, and `specs/Places` the index of a man's coordinates.
#![tactic(auto)]

mod table;
mod tuple;

pub use table::{MaskSets, place_of_mask};
pub use tuple::{Coordinates, coordinates, place_of_man};
