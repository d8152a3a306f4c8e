//! Finds the first move, and counts the moves along a ray, into sets of positions.
//!
//! Moves are ordered by man, ray and distance. Both sides of a game use this crate. `specs/Choice` defines which move
//! is the first, `specs/Along` how far moves along a ray go, and `specs/Aims` the conditions on the sets.
#![tactic(auto)]

mod aim;
mod choice;
pub mod laws;
mod men_frame;
mod movers;
mod pick;
mod ray_moves;
mod ray_pick;
mod ray_way;

pub use aim::{Aim, AimedRay, ManRay};
pub use choice::Choice;
pub use movers::{has_ray, his_ray};
pub use pick::first_move;
pub use ray_moves::{RayMoves, count_along, moves_along};
