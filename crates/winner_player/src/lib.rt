//! The winner of a game as a player against lines.
//!
//! He plays by a session. `specs/WinnerRules` has his rules, and `laws` states what his moves in a report achieve.
#![tactic(auto)]

pub mod laws;
mod winner;

pub use winner::Winner;
