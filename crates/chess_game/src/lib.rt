//! The referee of infinite chess: legal moves, soundness, attacks, rays and mate.
//!
//! Positions have two to eight men on squares with i64 coordinates. Each result is exact by the rules in `game_rules`,
//! also if a square that matters lies outside the range of i64. Nothing here allocates.
#![tactic(auto)]

mod answers;
mod attack;
mod board;
mod geometry;
mod moves;
mod piece;
mod position;
mod rays;
mod setup;
mod unsoundness;
mod way;

pub use game_rules::{Kind, Man, Place, Ray, Side};
pub use moves::{Illegal, Move};
pub use position::{
    MOST_CROWD, Position, attacked, crowd_soundness, free_way, in_check, mated, soundness, try_move,
};
pub use rays::{MOST_RAYS, ray, ray_count};
pub use unsoundness::Unsound;
pub use way::{Frame, Way};
