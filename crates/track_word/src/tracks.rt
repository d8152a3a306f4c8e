//! The names of tracks.

/// The name of a track, that is, of a variable. A word has its tracks in ascending order; bit t of a letter belongs to the t-th of
/// them.
#[derive(Clone, Copy, Default, PartialEq, Eq, PartialOrd, Ord, Hash)]
pub struct Var(pub u8);
