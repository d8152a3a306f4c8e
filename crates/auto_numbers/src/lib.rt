//! Searches the set of a one-track automaton for natural numbers.
//! Returns the least number from a given one on that is in the set, or that is not, and the greatest number, or that there is none.
//! `specs/Numbers` states these results, and `specs/Reading` how an automaton reads a number, from the highest bit on.
#![tactic(auto)]

mod bits;
mod largest;
pub mod laws;
mod least;
mod length;
mod most;
mod number_set;
mod outlook;
mod reading;

pub use bits::{GREATEST_BITS, MOST_BITS};
pub use largest::{Greatest, greatest_of};
pub use number_set::NumberSet;
