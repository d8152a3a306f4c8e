//! Prints the text of a position and its winner.

ghost use Rattle.std.specs.Prelude.{◌≡◌, ◌≤◌, ◌+◌, ◌∷◌, [], ◌++◌, ℕ, length, map, IfOk, OnOk};
ghost use Rattle.chess_text.specs.ManLine.{man_text, turn_text};
ghost use Rattle.chess_text.specs.PositionText.{position_text, text_of_lines};
ghost use Rattle.chess_text.specs.ManLine as letters;

use crate::line_buffer::LineBuffer;
use chess_game::{Kind, Man, Place, Position, Side};
use std::alloc::{AllocError, Global};

fn side_letter(side: Side) -> u8
    ensures { result ≡ letters.side_letter side }
{
    match side {
        Side::White => b'W',
        Side::Black => b'B',
    }
}

fn kind_letter(kind: Kind) -> u8
    ensures { result ≡ letters.kind_letter kind }
{
    match kind {
        Kind::King => b'K',
        Kind::Queen => b'Q',
        Kind::Rook => b'R',
        Kind::Bishop => b'B',
        Kind::Knight => b'N',
        Kind::Pawn => b'P',
        Kind::Chancellor => b'C',
        Kind::Archbishop => b'A',
        Kind::Amazon => b'Z',
        Kind::Nightrider => b'H',
    }
}

/// Returns the line of a man.
fn man_line(man: Man) -> LineBuffer
    ensures { result ≡ man_text man }
{
    let mut line = LineBuffer::new();
    line.push(&[side_letter(man.side), b' ', kind_letter(man.kind), b' ']);
    match man.place {
        Place::Gone => line.push(b"gone"),
        Place::At { x, y } => {
            line.push_number(x);
            line.push(b" ");
            line.push_number(y);
        }
    }
    line
}

/// Returns the line of the side to move and the winner.
fn turn_line(turn: Side, winner: Side) -> &'static [u8]
    ensures { result.now ≡ turn_text turn winner }
{
    match (turn, winner) {
        (Side::White, Side::White) => b"turn W",
        (Side::Black, Side::White) => b"turn B",
        (Side::White, Side::Black) => b"turn W for B",
        (Side::Black, Side::Black) => b"turn B for B",
    }
}

/// Appends the line and its LF.
fn push_line(text: &mut Vec<u8>, line: &[u8]) -> Result<(), AllocError>
    ensures { OnOk result (text.new.items ≡ text.old.items ++ (line.now ++ 10 ∷ [])) }
{
    text.extend_from_slice(line)?;
    text.push(b'\n')?;
    Ok(())
}

/// Appends the lines of the men.
fn push_men(text: &mut Vec<u8>, p: &Position) -> Result<(), AllocError>
    ensures { OnOk result (text.new.items ≡ text.old.items ++ text_of_lines (map man_text p.now.men)) }
{
    for index in 0..p.count() {
        push_line(text, man_line(p.man(index + 1)).as_slice())?;
    }
    Ok(())
}

/// Returns the only text of the position with this winner. The error is that an allocation failed.
pub fn position_bytes(alloc: Global, p: &Position, winner: Side) -> Result<Vec<u8>, AllocError>
    ensures { IfOk result (λ text. text.items ≡ position_text p.now winner) }
{
    let mut text = Vec::new(alloc);
    push_line(&mut text, b"infinite chess 1")?;
    push_line(&mut text, turn_line(p.turn(), winner))?;
    push_men(&mut text, p)?;
    push_line(&mut text, b"end")?;
    Ok(text)
}
