//! The position that a table answers for: its live men alone, and its soundness with a winner who may have no king.
//!
//! `specs/Soundness` defines the soundness, and the first reason against it. `specs/Live` defines the position of the
//! live men.
#![tactic(auto)]

mod checks;
mod live;

pub use checks::soundness_for;
pub use live::{LiveCount, MOST_STOCK, live_position};
