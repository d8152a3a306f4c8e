//! Decides whether the winner mates in a crowd, a position of up to 32 men.
//!
//! It executes the plan of `line_plan` path by path. After each option it computes the set of the distances at which
//! this move is legal too. From the last move back it computes the distances from which the winner still mates.
#![tactic(auto)]

mod crowd;
mod engine;
mod errors;
mod losing;
mod misses;
mod node;
mod parts;
mod path;
mod sets;
mod work;

pub use crowd::Crowd;
pub use engine::{MOST_CROWD_MOVES, decide_crowd};
pub use errors::CrowdError;
