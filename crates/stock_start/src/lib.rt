//! The position that stands for a stock: its men, all of them on the board.
#![tactic(auto)]

pub mod laws;
mod start;

pub use start::start_of;
