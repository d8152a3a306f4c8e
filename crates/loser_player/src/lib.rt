//! The loser of a game as a player against lines.
//!
//! `specs/LoserRules` has his rules. The laws state that a game has exactly one report, and that the loser is not mated
//! in it.
#![tactic(auto)]

pub mod laws;
mod player;

pub use player::Loser;
