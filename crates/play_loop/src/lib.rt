//! Plays a game of a player against moves that come as lines.
//!
//! `specs/Turns` defines the result of a line, `specs/LineReport` the report of a whole game, and `specs/Played` what a
//! game reads and writes. The rules of a player are a value of `Rules`; the code plays any implementation of `Player`.
#![tactic(auto)]

mod ending;
pub mod laws;
mod play;
mod player;
mod turn;

pub use ending::Ending;
pub use play::{GameError, play_game};
pub use player::{GameState, Player};
