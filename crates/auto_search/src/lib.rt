//! Searches the distances along a ray whose tuples are in an automaton's set.
//! Returns the least distance between two bounds, and whether all positive distances have none, one or several such tuples. Only
//! the call that reserves room can fail. `specs/TupleRay` defines rays and their tuples, `specs/Bits` the carries of the last bits
//! of a distance, `specs/Search` the search of states, and `specs/Met` the count over all distances.
#![tactic(auto)]

mod axis;
mod carry;
mod count;
mod course;
mod few;
mod front;
mod least;
mod marks;
mod met;
mod ray;
mod search;
mod several;
mod tuple_ray;

pub use few::Few;
pub use search::Search;
pub use tuple_ray::{TupleRay, value_along};
