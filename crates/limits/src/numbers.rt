//! The limits as numbers.

/// The maximum number of tracks of an automaton: two for each of eight men, and four more.
pub const MOST_TRACKS: u8 = 20;

/// The greatest budget: the maximum number of states that a step of a computation may be allowed to need.
pub const MOST_STATES: u32 = 16_777_216;

/// The maximum number of moves of the winner within which a mate is searched.
pub const MOST_MOVES: u8 = 20;

/// The maximum length of a strategy file, in bytes.
pub const MOST_FILE_BYTES: usize = 268_435_456;

/// The maximum length of an input line without its end, in bytes.
pub const MOST_LINE_BYTES: usize = 200;
