//! Membership of tuples of integers.
ghost use Rattle.std.specs.Prelude.{◌≡◌, ◌↔◌, ◌≤◌, ◌<◌, ◌^◌, ℕ, List, All, length, IsTrue};
ghost use Rattle.track_word.specs.Word.{letter_of, FitsBelow};
ghost use Rattle.auto_core.specs.Automaton.{state_of, Accepts};
ghost use Rattle.auto_core.specs.Integers.{DecidesIntegers, IsWordOf, IsAccepted, word_of};

use crate::auto::Auto;
use limits::MOST_TRACKS;
use track_word::bit_of;
use track_word::laws::{
    bits_spell_their_integers, repeating_first_letter_keeps_values, words_of_equal_values_are_equal,
};

impl Auto {
    /// Returns whether the tuple is accepted; `values` has one value for each track, in the order of the tracks. Reads a word of 64
    /// letters.
    pub fn member(&self, values: &[i64]) -> bool
        requires count { length values.now ≡ length self.now.tracks }
        requires decides { DecidesIntegers self.now }
        ensures member { IsTrue result ↔ IsAccepted self.now values.now }
        ensures words { (word : List ℕ) → IsWordOf self.now values.now word → IsTrue result ↔ Accepts self.now word }
    {
        bits_spell_their_integers();
        repeating_first_letter_keeps_values();
        words_of_equal_values_are_equal();
        let _ = self.tracks(); // for its invariant
        let state = self.state_of_values(values);
        self.accept_of(state)
    }

    /// Returns the state reached by the word of 64 letters of these values.
    fn state_of_values(&self, values: &[i64]) -> u32
        requires { length values.now ≡ length self.now.tracks }
        ensures state { result ≡ state_of self.now (word_of values.now) }
        ensures within { result < length self.now.accept }
        ensures fits { All (FitsBelow 63) values.now }
    {
        let _ = self.tracks(); // for its invariant
        let mut state = self.first_of(letter_at(values, 63));
        for read in 0..63u8 {
            state = self.next_of(state, letter_at(values, 62 - read));
        }
        state
    }
}

/// Returns the letter of the bits at a place.
fn letter_at(values: &[i64], place: u8) -> u32
    requires few { length values.now ≤ MOST_TRACKS }
    requires place { place ≤ 63 }
    ensures letter { result ≡ letter_of values.now place }
    ensures within { result < 2 ^ length values.now }
    ensures fits { All (FitsBelow 63) values.now }
{
    match values.split_first() {
        None => 0,
        Some((value, rest)) => bit_of(*value as i128, place) + 2 * letter_at(rest, place),
    }
}
