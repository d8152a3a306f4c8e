//! The greatest number of states of a set in a file.

/// The greatest number of states of a set that a file may have.
pub const MOST_FILED_STATES: u32 = 200_000;
