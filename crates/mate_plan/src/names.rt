//! Names of the parts of a plan.

/// A part of a plan.
#[derive(Clone, Copy, PartialEq, Eq)]
pub enum Part {
    /// The starting position.
    Point,
    /// The targets of moves.
    Image,
    /// The mover's king is not attacked.
    Safe,
    /// The winner has a move into what is kept.
    Win,
    /// What is reached and not kept.
    Rest,
    /// The loser has a move into that rest.
    Escape,
    /// He has none.
    Calm,
    /// He is in check.
    Check,
    /// He is not.
    Quiet,
    /// He has a move.
    Reply,
    /// He is in check or has a move.
    Lost,
    /// Two men stand on one square.
    Same,
    /// The winner is in check.
    Guard,
    /// The winner's first move.
    First,
    /// The winner's reply.
    Answer,
    /// The positions without a reply.
    Left,
    /// The loser is stalemated.
    Stale,
    /// All positions with the loser's king on 0 0, for a table.
    Place,
    /// A set of a table, moved with the loser's king.
    Moved,
}

/// The name of a part of a plan: a part at a ply, for the positions whose live men are those of a mask.
#[derive(Clone, Copy, PartialEq, Eq)]
pub struct PartName {
    /// The number of moves made since the starting position.
    pub ply: u8,
    /// The live men: bit `i - 1` is 1 if and only if man `i` is live.
    pub mask: u8,
    pub part: Part,
}
