//! The origin of sets.

/// The origin of the kept sets of a solved position.
#[derive(Clone, Copy, PartialEq, Eq)]
pub enum Origin {
    /// The plan: there is one for each ply and each mask.
    Plan,
    /// A claim that is won: there is one for each ply of the loser and each mask.
    Claim,
}
