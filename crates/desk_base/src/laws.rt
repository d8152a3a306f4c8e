//! Laws of the lines of an input. The three laws together determine the lines of any bytes.

ghost use Rattle.std.specs.Prelude.{◌≡◌, ◌+◌, ℕ, List, ◌∷◌, ◌++◌};
ghost use Rattle.desk_base.specs.Lines.{IsLine, IsTooLong, full, long, part_of, lines_of};

/// States that a line of at most 200 bytes and its LF are the next line, and that the lines of the remaining bytes
/// follow.
pub fn full_line()
    ensures { (line rest : List ℕ) → IsLine line → lines_of (line ++ 10 ∷ rest) ≡ full line (lines_of rest) }
{}

/// States that an input of at most 200 bytes without LF ends within a line, or at the start of a line if it is empty.
pub fn part_of_line()
    ensures { (bytes : List ℕ) → IsLine bytes → lines_of bytes ≡ part_of bytes }
{}

/// States that 201 bytes without LF are too long a line, whatever follows them.
pub fn long_line()
    ensures { (bytes rest : List ℕ) → IsTooLong bytes → lines_of (bytes ++ rest) ≡ long }
{}
