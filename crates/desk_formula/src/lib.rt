//! The command `arith`: decides a formula, given as a line, over all integers.
//!
//! If the formula says that there is a number, the answer names the one nearest to 0. `specs/Arith` defines what is
//! reported.
#![tactic(auto)]

pub mod arith;
