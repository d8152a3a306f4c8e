//! The words that an automaton accepts, and the tuples of integers in its set.

ghost use Rattle.std.specs.Prelude.{◌≤◌, IsTrue};
ghost use Rattle.track_word.specs.Word.{IsWord};
ghost use Rattle.auto_core.specs.Integers.{DecidesIntegers};

use crate::reduced_auto::check_stable;
use crate::tables::{are_below, width_of};
use auto_core::Auto;
use limits::MOST_TRACKS;
use std::alloc::Global;
use trial_rows::{Row, RowError, numbers};

/// Returns whether some letters are a word over this number of tracks.
fn is_word(tracks: usize, word: &[u32]) -> bool
    requires { tracks ≤ MOST_TRACKS }
    ensures { IsTrue result → IsWord tracks word.now }
{
    if word.is_empty() {
        return false;
    }
    are_below(word, width_of(tracks))
}

/// Whether the automaton accepts the word of a text.
fn accepts(alloc: Global, a: &Auto, text: &str) -> Result<bool, RowError> {
    let word = numbers::<u32>(alloc, text)?;
    if !is_word(a.tracks().len(), word.as_slice()) {
        return Err(RowError::Condition);
    }
    Ok(a.accepts(word.as_slice()))
}

/// Whether the tuple of a text is in the automaton's set.
fn has_member(alloc: Global, a: &Auto, text: &str) -> Result<bool, RowError>
    requires { DecidesIntegers a.now }
{
    let values = numbers::<i64>(alloc, text)?;
    if values.len() != a.tracks().len() {
        return Err(RowError::Condition);
    }
    Ok(a.member(values.as_slice()))
}

/// Runs `accepts WORDS A`: which words are accepted. Words are separated by `/`, and the letters of a word by commas.
pub fn write_words(row: &mut Row, a: &Auto, words: &str) -> Result<(), RowError> {
    for (place, word) in words.split('/').enumerate() {
        row.separate(place, ' ');
        row.write_truth(accepts(row.alloc, a, word)?);
    }
    Ok(())
}

/// Runs `member TUPLES A`: which tuples of integers are in the set. Tuples are separated by `/`, and the integers of a
/// tuple by commas.
pub fn write_tuples(row: &mut Row, a: &Auto, tuples: &str) -> Result<(), RowError> {
    check_stable(row.alloc, a)?;
    for (place, tuple) in tuples.split('/').enumerate() {
        row.separate(place, ' ');
        row.write_truth(has_member(row.alloc, a, tuple)?);
    }
    Ok(())
}
