//! Sets of positive integers that repeat from some number on.

/// The greatest period that is tried.
pub const MOST_PERIOD: u8 = 60;

/// The maximum number of listed runs.
pub const MOST_RUNS: u8 = 100;

/// Consecutive numbers, given by their first and last.
#[derive(Clone, Copy)]
pub struct Run {
    pub low: u128,
    pub high: u128,
}

/// The positive members of a set: a list of runs, and from `from` on the numbers whose residue modulo the period is listed.
#[derive(Drop)]
pub struct Periodic {
    /// The maximal runs below `from` in ascending order; between two of them at least one number is not in the set.
    pub runs: Vec<Run>,
    /// The least positive number from which on the set repeats.
    pub from: u128,
    /// The least period, 1 to `MOST_PERIOD`.
    pub period: u8,
    /// Bit i is 1 if numbers with residue i are in the set.
    pub rests: u64,
}

/// The start of the repetition of a set, and its period.
#[derive(Clone, Copy)]
pub struct PeriodStart {
    pub from: u128,
    pub period: u8,
}
