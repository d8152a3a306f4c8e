//! The greatest number in a set.
ghost use Rattle.std.specs.Prelude.{◌≡◌, ◌<◌, IfOk, length, true};
ghost use Rattle.auto_core.specs.Integers.{DecidesIntegers};
ghost use Rattle.auto_core.specs.Reduced.{IsReduced};
ghost use Rattle.auto_numbers.specs.Numbers.{Has, IsGreatest};
ghost use Rattle.auto_numbers.specs.Reading.{LeadsSome};
ghost use Rattle.auto_numbers.specs.Lengths.{IsGreatestAfterOne};

use crate::bits::{GREATEST_BITS, power};
use crate::length::{Length, length_at, lengths as lengths_of};
use crate::most::most;
use crate::outlook::Outlook;
use crate::reading::next_states;
use auto_core::Auto;
use std::alloc::{AllocError, Global};
use track_word::laws::{
    bits_spell_their_integers, repeating_first_letter_keeps_values, words_of_equal_values_are_equal,
};

/// The greatest positive number in a set.
#[derive(Clone, Copy)]
pub enum Greatest {
    /// The set contains no positive number.
    Nothing,
    /// The greatest number, which has at most `GREATEST_BITS` bits.
    Number(u128),
    /// There is a greatest number, but it has more bits.
    Far,
    /// The set is unbounded.
    Endless,
}

/// Returns the greatest positive number in the set of a minimal automaton with one track. Iterates over the states as often as
/// `lengths` does, and once for each of `MOST_BITS` bits if it returns a number. Errors: an allocation failed.
pub fn greatest_of(alloc: Global, a: &Auto) -> Result<Greatest, AllocError>
    requires one { length a.now.tracks ≡ 1 }
    requires decides { DecidesIntegers a.now }
    requires reduced { IsReduced a.now }
    ensures { IfOk result (IsGreatest (Has a.now)) }
{
    bits_spell_their_integers();
    repeating_first_letter_keeps_values();
    words_of_equal_values_are_equal();
    let _ = a.tracks(); // for its invariant
    let lengths = lengths_of(alloc, a)?;
    let (_, state) = next_states(a, a.first_of(0));
    match length_at(lengths.as_slice(), state) {
        Length::Unknown => Ok(Greatest::Endless),
        Length::Nothing => Ok(Greatest::Nothing),
        Length::Long => Ok(Greatest::Far),
        Length::UpTo(bits) => Ok(Greatest::Number(number(alloc, a, state, bits)?)),
    }
}

/// Returns the greatest number of `bits` bits by which the state reaches acceptance, with a leading bit 1 added.
fn number(alloc: Global, a: &Auto, state: u32, bits: u8) -> Result<u128, AllocError>
    requires one { length a.now.tracks ≡ 1 }
    requires known { state < length a.now.accept }
    requires bits { bits < GREATEST_BITS }
    requires some { LeadsSome a.now true state bits }
    ensures { IfOk result (IsGreatestAfterOne a.now state bits) }
{
    let outlook = Outlook::new(alloc, a, true)?;
    match most(&outlook, state, bits) {
        Some(found) => Ok(power(bits) + found),
        None => unreachable!(),
    }
}
