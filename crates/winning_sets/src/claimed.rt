//! Claimed sets.

use crate::ply_sets::PlySets;
use chess_game::{Position, Side};

/// A position with the sets that a claim has for it, whether the claim is won or not. The sets are stored ply by ply,
/// and at each ply of the loser in the order of the masks. A ply of the winner has none.
#[derive(Drop)]
pub struct ClaimedSets {
    pub position: Position,
    pub winner: Side,
    pub moves: u8,
    /// The masks of the position, in ascending order.
    pub masks: Vec<u8>,
    pub plies: Vec<PlySets>,
}
