//! Prints the text of a stock.

ghost use Rattle.std.specs.Prelude.{◌≡◌, ◌++◌, ◌∷◌, [], map, IfOk, OnOk};
ghost use Rattle.chess_text.specs.ManLine as letters;
ghost use Rattle.chess_text.specs.PositionText.{text_of_lines};
ghost use Rattle.stock_text.specs.StockText.{man_text, stock_text, winner_text};

use crate::stock::{Stock, StockMan};
use chess_game::{Kind, Side};
use std::alloc::{AllocError, Global};

fn side_letter(side: Side) -> u8
    ensures { result ≡ letters.side_letter side }
{
    match side {
        Side::White => b'W',
        Side::Black => b'B',
    }
}

fn kind_letter(kind: Kind) -> u8
    ensures { result ≡ letters.kind_letter kind }
{
    match kind {
        Kind::King => b'K',
        Kind::Queen => b'Q',
        Kind::Rook => b'R',
        Kind::Bishop => b'B',
        Kind::Knight => b'N',
        Kind::Pawn => b'P',
        Kind::Chancellor => b'C',
        Kind::Archbishop => b'A',
        Kind::Amazon => b'Z',
        Kind::Nightrider => b'H',
    }
}

/// Returns the line that names the winner.
fn winner_line(winner: Side) -> &'static [u8]
    ensures { result.now ≡ winner_text winner }
{
    match winner {
        Side::White => b"winner W",
        Side::Black => b"winner B",
    }
}

/// Appends the line and its LF.
fn push_line(text: &mut Vec<u8>, line: &[u8]) -> Result<(), AllocError>
    ensures { OnOk result (text.new.items ≡ text.old.items ++ (line.now ++ 10 ∷ [])) }
{
    text.extend_from_slice(line)?;
    text.push(b'\n')?;
    Ok(())
}

/// Appends the lines of the men.
fn push_men(text: &mut Vec<u8>, men: &[StockMan]) -> Result<(), AllocError>
    ensures { OnOk result (text.new.items ≡ text.old.items ++ text_of_lines (map man_text men.now)) }
{
    for man in men {
        push_line(text, &[side_letter(man.side), b' ', kind_letter(man.kind)])?;
    }
    Ok(())
}

/// Returns the only text of the stock. The error is that an allocation failed.
pub fn stock_bytes(alloc: Global, stock: &Stock) -> Result<Vec<u8>, AllocError>
    ensures { IfOk result (λ text. text.items ≡ stock_text stock.now) }
{
    let mut text = Vec::new(alloc);
    push_line(&mut text, b"infinite stock 1")?;
    push_line(&mut text, winner_line(stock.winner()))?;
    push_men(&mut text, stock.men())?;
    push_line(&mut text, b"end")?;
    Ok(text)
}
