//! Laws of the numbers in a set, each the contract of a function without a body.
ghost use Rattle.std.specs.Prelude.{◌≡◌, ℕ, length};
ghost use Rattle.auto_core.specs.Integers.{DecidesIntegers};
ghost use Rattle.auto_numbers.specs.Laws.{OneGreatest, OneNext};
ghost use Rattle.auto_numbers.specs.Numbers.{IsInOrNot};

use auto_core::Auto;
use track_word::laws::{
    bits_spell_their_integers, repeating_first_letter_keeps_values, words_of_equal_values_are_equal,
};

/// States that each number is in the set or not.
pub fn each_number_is_in_or_not(a: &Auto)
    requires one { length a.now.tracks ≡ 1 }
    requires decides { DecidesIntegers a.now }
    ensures { (t : ℕ) → IsInOrNot a.now t }
{
    bits_spell_their_integers();
    repeating_first_letter_keeps_values();
    words_of_equal_values_are_equal();
    let _ = a.tracks(); // for its invariant
}

/// States that the next number in a set is unique.
pub fn one_next()
    ensures { OneNext }
{}

/// States that the description of the greatest number in a set is unique.
pub fn one_greatest()
    ensures { OneGreatest }
{}
