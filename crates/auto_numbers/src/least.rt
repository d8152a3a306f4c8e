//! The least number of a given number of bits, from a number on.
ghost use Rattle.std.specs.Prelude.{◌≡◌, ◌^◌, ◌<◌, ◌≤◌, length};
ghost use Rattle.auto_core.specs.Integers.{DecidesIntegers};
ghost use Rattle.auto_numbers.specs.Numbers.{IsNextFound};
ghost use Rattle.auto_numbers.specs.Outlook.{IsSide};
ghost use Rattle.auto_numbers.specs.Reading.{LeadsLeastOrNone};

use crate::bits::{MOST_BITS, power};
use crate::outlook::Outlook;
use crate::reading::next_states;
use track_word::laws::{
    bits_spell_their_integers, repeating_first_letter_keeps_values, words_of_equal_values_are_equal,
};

/// Returns the least number from `low` on that is in the set, or that is not, by the outlook's flag. Reads each bit at most twice.
pub(crate) fn next(outlook: &Outlook, low: u128) -> Option<u128>
    requires decides { DecidesIntegers outlook.now.auto.now }
    requires low { low < 2 ^ MOST_BITS }
    ensures { IsNextFound (IsSide outlook.now.auto.now outlook.now.flag) low result }
{
    bits_spell_their_integers();
    repeating_first_letter_keeps_values();
    words_of_equal_values_are_equal();
    let a = outlook.auto;
    let _ = a.tracks(); // for its invariant
    let found = least(outlook, a.first_of(0), MOST_BITS, low);
    found
}

/// Returns the least number of `bits` bits from `low` on that leads from the state to the flag.
fn least(outlook: &Outlook, state: u32, bits: u8, low: u128) -> Option<u128>
    requires known { state < length outlook.now.auto.now.accept }
    requires bits { bits ≤ MOST_BITS }
    requires low { low < 2 ^ bits }
    ensures { LeadsLeastOrNone outlook.now.auto.now outlook.now.flag state bits low result }
{
    if !outlook.leads(state, bits) {
        return None;
    }
    if bits == 0 {
        return Some(0);
    }
    let bits = bits - 1;
    let half = power(bits);
    let (zero, one) = next_states(outlook.auto, state);
    if low >= half {
        return match least(outlook, one, bits, low - half) {
            Some(found) => Some(half + found),
            None => None,
        };
    }
    if let Some(found) = least(outlook, zero, bits, low) {
        return Some(found);
    }
    match least(outlook, one, bits, 0) {
        Some(found) => Some(half + found),
        None => None,
    }
}
