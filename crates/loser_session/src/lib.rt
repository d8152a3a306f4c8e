//! A game in which the loser avoids mate within the given number of moves.
//!
//! The winner's moves are given. The loser's moves lead to positions that are reached and not won. `specs/Unwon`
//! defines the sets of these positions, `specs/Defending` the state of a defence, the loser's move, and the result of
//! any list of given moves, and `specs/FirstSteps` which moves decide whether there is a legal one.
#![tactic(auto)]

mod any_move;
mod defence;
pub mod laws;
mod plies;
mod room;
mod unwon_sets;

pub use defence::{Defence, Stand};
pub use winner_session::TooWide;
