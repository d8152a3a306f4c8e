//! Defines the plan that decides a crowd, with one variable for each move.
//!
//! The plan for few men has two variables for each man. Here a path of options leads from the position over moves whose
//! distances stay open, so the number of men is not limited. `specs/Plan` defines which sets of distances are computed,
//! path by path, as a program of numbered steps. `specs/Laws` states what the sets contain: the distances at which the
//! moves of a path are legal, and those after which the winner mates with the moves left.
#![tactic(auto)]

pub mod laws;
