//! The progress at a path of the loser.

use auto_core::Auto;

/// The progress over the loser's options: where he escapes by one of them, and where a move by one is legal.
#[derive(Drop)]
pub(crate) struct LoserProgress {
    pub(crate) escape: Option<Auto>,
    pub(crate) moves: Option<Auto>,
}
