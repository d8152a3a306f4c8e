//! The line of a verdict.

ghost use Rattle.std.specs.Prelude.{◌≡◌, ◌≤◌, ◌++◌, IsTrue, codes, length};
ghost use Rattle.std.specs.Fmt.{decimal};
ghost use Rattle.desk_verdict.specs.Verdict.{mate_line, no_mate_line};

use chess_text::line_buffer::LineBuffer;

/// Returns the line that says whether the winner mates within `moves` moves.
pub fn verdict_line(won: bool, moves: u8) -> LineBuffer
    ensures won { IsTrue won → result ≡ mate_line moves }
    ensures not_won { (IsTrue won → ⊥) → result ≡ no_mate_line moves }
{
    if won {
        number_line(b"mate in ", moves)
    } else {
        number_line(b"no mate in ", moves)
    }
}

/// Returns the text followed by the number.
pub fn number_line(text: &[u8], number: u8) -> LineBuffer
    requires { length text.now ≤ 100 }
    ensures { result ≡ text.now ++ decimal number ++ codes "\n" }
{
    let mut line = LineBuffer::new();
    line.push(text);
    line.push_number(i64::from(number));
    line.push(b"\n");
    line
}
