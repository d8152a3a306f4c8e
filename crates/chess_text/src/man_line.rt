//! The lines for the men, and the line for the side to move and the winner.

ghost use Rattle.std.specs.Prelude.{◌≡◌, ◌≢◌, IfOk, IfErr, OnErr, IfSome, IfNone, ℕ};
ghost use Rattle.chess_text.specs.ManLine.{turn_text, side_letter, kind_letter, IsManLine, IsManRefusal, IsPlaceText, IsPlaceRefusal};
ghost use Rattle.game_rules.specs.declared.men.Side.{Side};
ghost use Rattle.game_rules.specs.declared.men.Kind.{Kind};

use crate::fields::{PairWhy, read_pair};
use crate::grammar::Grammar;
use chess_game::{Kind, Man, Place, Side};

/// Why a line of a position text is refused.
#[derive(Clone, Copy, PartialEq, Eq)]
pub enum TextWhy {
    /// The first line is not the header.
    Header,
    /// The second line does not name the side to move, and optionally Black as winner.
    Turn,
    /// A line does not have the shape of a man line.
    ManLine,
    /// A coordinate is not a number of 64 bits, or exceeds the range of the text.
    Number,
    /// The text ends with fewer than two men.
    TooFew,
    /// The text has its greatest number of men already, and another line than the end follows.
    TooMany,
}

/// Returns the side of a symbol.
fn side_of(letter: u8) -> Option<Side>
    ensures some { IfSome result (λ s. letter ≡ side_letter s) }
    ensures none { IfNone result ((s : Side) → letter ≢ side_letter s) }
{
    match letter {
        b'W' => Some(Side::White),
        b'B' => Some(Side::Black),
        _ => None,
    }
}

/// Returns the kind of a symbol.
fn kind_of(letter: u8) -> Option<Kind>
    ensures some { IfSome result (λ k. letter ≡ kind_letter k) }
    ensures none { IfNone result ((k : Kind) → letter ≢ kind_letter k) }
{
    match letter {
        b'K' => Some(Kind::King),
        b'Q' => Some(Kind::Queen),
        b'R' => Some(Kind::Rook),
        b'B' => Some(Kind::Bishop),
        b'N' => Some(Kind::Knight),
        b'P' => Some(Kind::Pawn),
        b'C' => Some(Kind::Chancellor),
        b'A' => Some(Kind::Archbishop),
        b'Z' => Some(Kind::Amazon),
        b'H' => Some(Kind::Nightrider),
        _ => None,
    }
}

/// Parses the place after the two symbols of a man line.
fn read_place(grammar: &Grammar, text: &[u8]) -> Result<Place, PairWhy>
    ensures place { IfOk result (IsPlaceText grammar.now text.now) }
    ensures refused { IfErr result (IsPlaceRefusal grammar.now text.now) }
{
    if text == b"gone".as_slice() {
        return Ok(Place::Gone);
    }
    let (x, y) = read_pair(text)?;
    if grammar.takes(x) && grammar.takes(y) {
        Ok(Place::At { x, y })
    } else {
        Err(PairWhy::Number)
    }
}

/// Parses a man line: a symbol for the side, one for the kind, and two coordinates or the word `gone`.
pub fn read_man_line(grammar: &Grammar, line: &[u8]) -> Result<Man, TextWhy>
    ensures man { IfOk result (IsManLine grammar.now line.now) }
    ensures refused { IfErr result (IsManRefusal grammar.now line.now) }
{
    let [side, b' ', kind, b' ', rest @ ..] = line else {
        return Err(TextWhy::ManLine);
    };
    let (Some(side), Some(kind)) = (side_of(*side), kind_of(*kind)) else {
        return Err(TextWhy::ManLine);
    };
    match read_place(grammar, rest) {
        Ok(place) => Ok(Man { side, kind, place }),
        Err(PairWhy::Shape) => Err(TextWhy::ManLine),
        Err(PairWhy::Number) => Err(TextWhy::Number),
    }
}

/// Parses the second line of a text: the side to move and the winner, which is White if the line names none.
pub fn read_turn_line(line: &[u8]) -> Result<(Side, Side), TextWhy>
    ensures sides { IfOk result (λ sides. line.now ≡ turn_text sides.0 sides.1) }
    ensures refused { IfErr result (λ why. why ≡ TextWhy.Turn) }
    ensures no_sides { OnErr result ((turn winner : Side) → line.now ≢ turn_text turn winner) }
{
    if line == b"turn W".as_slice() {
        Ok((Side::White, Side::White))
    } else if line == b"turn B".as_slice() {
        Ok((Side::Black, Side::White))
    } else if line == b"turn W for B".as_slice() {
        Ok((Side::White, Side::Black))
    } else if line == b"turn B for B".as_slice() {
        Ok((Side::Black, Side::Black))
    } else {
        Err(TextWhy::Turn)
    }
}
