//! The moves of a path.

use game_rules::Ray;

/// The maximum number of moves of a path. An atom has eight terms: one for the constant, one for each of these moves, and one for
/// the next move.
pub const MOST_LEGS: usize = 6;

/// One move of a path: a man and his ray. The distance is open.
#[derive(Clone, Copy, PartialEq, Eq)]
pub struct Leg {
    /// The number of the man, from 1.
    pub man: u8,
    pub ray: Ray,
}
