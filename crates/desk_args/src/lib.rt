//! Parses command-line arguments.
//!
//! `specs/Order` defines the command that the arguments are, or the first reason why they are none.
#![tactic(auto)]

pub mod laws;
mod order;

pub use order::{Asked, DEFAULT_STATES, MOST_CROWD_MOVES, Order, TextOrder, UsageWhy, order_of};
