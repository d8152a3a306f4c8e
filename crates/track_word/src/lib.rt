//! Defines words over tracks: lists of letters whose bits encode integers.
//! Each track of a word spells one integer in two's complement, most significant bit first; the first letter is the sign letter
//! (Büchi 1960).
//! `specs/Word` defines words and the integers that they spell, `specs/Tracks` words over some of their tracks, and `specs/Atom`
//! linear comparisons of values. `lists` has operations on lists of tracks.
#![tactic(auto)]

mod atoms;
mod bits;
pub mod laws;
mod lists;
mod tracks;

pub use atoms::Rel;
pub use bits::bit_of;
pub use lists::{are_distinct, insert_track, insert_tracks, place_of, places_of, remove_track};
pub use tracks::Var;
