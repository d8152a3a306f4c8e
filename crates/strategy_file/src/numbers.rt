//! The numbers of sides and kinds of men in a file.

ghost use Rattle.std.specs.Prelude.{◌≡◌};
ghost use Rattle.strategy_file.specs.Men.{kind_of as kind_at, side_of as side_at, turn_of as turn_at, winner_of as winner_at};
ghost use Rattle.strategy_file.specs.Numbers.{kind_byte, side_byte, turn_byte};

use chess_game::{Kind, Side};

pub(crate) fn side_of(number: u8) -> Side
    ensures { result ≡ side_at number }
{
    match number {
        0 => Side::White,
        _ => Side::Black,
    }
}

/// Returns the number of a man's side.
pub fn side_number(side: Side) -> u8
    ensures { result ≡ side_byte side }
{
    match side {
        Side::White => 0,
        Side::Black => 1,
    }
}

/// Returns the side to move.
pub(crate) fn turn_of(number: u8) -> Side
    ensures { result ≡ turn_at number }
{
    match number {
        0 | 2 => Side::White,
        _ => Side::Black,
    }
}

/// Returns the winner.
pub(crate) fn winner_of(number: u8) -> Side
    ensures { result ≡ winner_at number }
{
    match number {
        0 | 1 => Side::White,
        _ => Side::Black,
    }
}

/// Returns the number of a winner and a side to move.
pub fn turn_number(winner: Side, turn: Side) -> u8
    ensures { result ≡ turn_byte winner turn }
{
    match (winner, turn) {
        (Side::White, Side::White) => 0,
        (Side::White, Side::Black) => 1,
        (Side::Black, Side::White) => 2,
        (Side::Black, Side::Black) => 3,
    }
}

pub(crate) fn kind_of(number: u8) -> Kind
    ensures { result ≡ kind_at number }
{
    match number {
        0 => Kind::King,
        1 => Kind::Queen,
        2 => Kind::Rook,
        3 => Kind::Bishop,
        4 => Kind::Knight,
        5 => Kind::Pawn,
        6 => Kind::Chancellor,
        7 => Kind::Archbishop,
        8 => Kind::Amazon,
        _ => Kind::Nightrider,
    }
}

/// Returns the number of a man's kind.
pub fn kind_number(kind: Kind) -> u8
    ensures { result ≡ kind_byte kind }
{
    match kind {
        Kind::King => 0,
        Kind::Queen => 1,
        Kind::Rook => 2,
        Kind::Bishop => 3,
        Kind::Knight => 4,
        Kind::Pawn => 5,
        Kind::Chancellor => 6,
        Kind::Archbishop => 7,
        Kind::Amazon => 8,
        Kind::Nightrider => 9,
    }
}
