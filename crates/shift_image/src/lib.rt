//! Compiles images of sets under changes of some values by constants.
//! The formula of an image binds the old values; a step along a near ray is of this form. Its automaton is that of the set with
//! shifted tracks, without products and projections, if that shows that no step of the formula exceeds the budget. Otherwise the
//! formula is compiled as any other. `bounds` has the theorems that bound the states of its steps by those of the shifted set.
#![tactic(auto)]

pub mod bounds;
mod compiling;
mod image;
pub mod laws;
mod leaving;
mod merging;
mod movable;
mod reading;
mod share;
mod shift;
mod shifting;
mod tuples;

pub use compiling::compile_image_on;
pub use shift::ValueShift;
