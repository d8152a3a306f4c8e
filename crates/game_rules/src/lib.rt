//! Defines infinite chess: men, squares of an unbounded board, and the rules of the game.
//!
//! The types are in this crate's modules, the rules are definitions under `specs`. `Game` defines every term of a
//! verdict, from how the men move to mate within n moves. `Rays` has the table of the rays along which each kind of man
//! goes. The crate has no algorithms. These two files are all that a reader needs to understand what the crates above
//! prove.
#![tactic(auto)]

mod men;

pub use men::{Kind, Man, Place, Ray, Side, Square};
