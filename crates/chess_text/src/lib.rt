//! Parses and prints positions and moves.
#![tactic(auto)]

mod draft;
mod fields;
mod grammar;
pub mod laws;
pub mod line_buffer;
mod man_line;
mod positions;
mod reader;
mod replies;
mod writer;

pub use draft::{Draft, MOST_READ};
pub use grammar::{Grammar, MOST_MEN};
pub use man_line::{TextWhy, read_man_line, read_turn_line};
pub use positions::{Fed, PositionReader};
pub use reader::{LineOutcome, TextError, TextReader};
pub use replies::{MoveText, MoveWhy, Typed, read_move};
pub use writer::position_bytes;
