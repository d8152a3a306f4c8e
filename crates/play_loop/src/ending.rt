//! The endings of a game.

/// How a game ended.
#[derive(Clone, Copy, PartialEq, Eq)]
pub enum Ending {
    /// The other side is mated.
    Mated,
    /// The other side has made all its moves, and has not mated.
    Held,
    /// The side to move has no legal move.
    Stuck,
    /// The player has no move to a square that can be named.
    Wide,
    /// A line is `quit`.
    Quit,
    /// The input ended when a line was due.
    NoLine,
    /// As many lines were read as may be.
    Many,
    /// The input ends within the line of this number.
    CutAt(u32),
    /// The line of this number is too long.
    LongAt(u32),
}
