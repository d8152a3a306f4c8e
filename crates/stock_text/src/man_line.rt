//! The lines of a stock text that name a man or the winner.

ghost use Rattle.std.specs.Prelude.{◌≡◌, ◌≢◌, IfSome, IfNone};
ghost use Rattle.chess_text.specs.ManLine.{kind_letter, side_letter};
ghost use Rattle.game_rules.specs.declared.men.Side.{Side};
ghost use Rattle.game_rules.specs.declared.men.Kind.{Kind};
ghost use Rattle.stock_text.specs.declared.stock.StockMan.{StockMan};
ghost use Rattle.stock_text.specs.StockText.{man_text, winner_text};

use crate::stock::StockMan;
use chess_game::{Kind, Side};

/// Why a line of a stock text is refused.
#[derive(Clone, Copy, PartialEq, Eq)]
pub enum StockWhy {
    /// The first line is not the header.
    Header,
    /// The second line does not name the winner.
    Winner,
    /// A line does not name a man by side and kind.
    ManLine,
    /// The text ends with fewer than two men.
    TooFew,
    /// The text has its greatest number of men already, and another line than the end follows.
    TooMany,
}

/// Returns the side of a symbol.
fn side_of(letter: u8) -> Option<Side>
    ensures some { IfSome result (λ s. letter ≡ side_letter s) }
    ensures none { IfNone result ((s : Side) → letter ≢ side_letter s) }
{
    match letter {
        b'W' => Some(Side::White),
        b'B' => Some(Side::Black),
        _ => None,
    }
}

/// Returns the kind of a symbol.
fn kind_of(letter: u8) -> Option<Kind>
    ensures some { IfSome result (λ k. letter ≡ kind_letter k) }
    ensures none { IfNone result ((k : Kind) → letter ≢ kind_letter k) }
{
    match letter {
        b'K' => Some(Kind::King),
        b'Q' => Some(Kind::Queen),
        b'R' => Some(Kind::Rook),
        b'B' => Some(Kind::Bishop),
        b'N' => Some(Kind::Knight),
        b'P' => Some(Kind::Pawn),
        b'C' => Some(Kind::Chancellor),
        b'A' => Some(Kind::Archbishop),
        b'Z' => Some(Kind::Amazon),
        b'H' => Some(Kind::Nightrider),
        _ => None,
    }
}

/// Parses a man line: a symbol for the side, a blank, and a symbol for the kind.
pub(crate) fn read_man_line(line: &[u8]) -> Option<StockMan>
    ensures man { IfSome result (λ m. line.now ≡ man_text m) }
    ensures none { IfNone result ((m : StockMan) → line.now ≢ man_text m) }
{
    let [side, b' ', kind] = line else {
        return None;
    };
    match (side_of(*side), kind_of(*kind)) {
        (Some(side), Some(kind)) => Some(StockMan { side, kind }),
        _ => None,
    }
}

/// Parses the second line of a stock text, which names the winner.
pub(crate) fn read_winner_line(line: &[u8]) -> Option<Side>
    ensures winner { IfSome result (λ s. line.now ≡ winner_text s) }
    ensures none { IfNone result ((s : Side) → line.now ≢ winner_text s) }
{
    if line == b"winner W".as_slice() {
        Some(Side::White)
    } else if line == b"winner B".as_slice() {
        Some(Side::Black)
    } else {
        None
    }
}
