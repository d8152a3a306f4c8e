//! Laws of minimal automata.
ghost use Rattle.auto_reduce.specs.Tables.{EqualWordsEqualTables};

/// States that two minimal automata with equal tracks, whose states are numbered in breadth-first order by ascending letters, have
/// equal tables if they accept the same words.
pub fn equal_words_are_equal_tables()
    ensures { EqualWordsEqualTables }
{}
