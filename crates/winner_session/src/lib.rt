//! A game in which the winner plays by the sets of a solved position.
//!
//! The loser's moves are given. The sets are those of a plan or of a won claim. `specs/Game` defines the state of a
//! session, the winner's move, and the result of any list of replies.
#![tactic(auto)]

mod first_line;
pub mod laws;
mod session;

pub use first_line::{FirstLine, first_moves};
pub use session::{Played, Session, TooWide};
