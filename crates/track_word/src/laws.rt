//! Laws of words, each the contract of a function without a body.
ghost use Rattle.track_word.specs.Word.{RepeatKeepsValues, BitsSpell, TuplesHaveWords, EqualValuesEqualWords};

/// States that repeating the first letter of a word (sign extension) keeps the value of every track.
pub fn repeating_first_letter_keeps_values()
    ensures { RepeatKeepsValues }
{}

/// States that the bits of integers from a high enough place downwards form a word that spells the integers.
pub fn bits_spell_their_integers()
    ensures { BitsSpell }
{}

/// States that each tuple of at most 32 integers has a word of every sufficiently large length.
pub fn each_tuple_has_words()
    ensures { TuplesHaveWords }
{}

/// States that two words with equal track counts, lengths and values are equal.
pub fn words_of_equal_values_are_equal()
    ensures { EqualValuesEqualWords }
{}
