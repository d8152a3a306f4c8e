//! Computes all winning first moves along a ray as a set of distances.
//!
//! The set is the automaton of a formula over the kept sets of a solved position. `specs/RayFormula` has the formula,
//! and `specs/FirstSet` the meaning of its set and the errors.
#![tactic(auto)]

mod first_set;
mod formulas;
mod kept_table;
pub mod laws;
mod masks;

pub use first_set::ray_set;
