//! Legal moves, and the reasons why others are refused.

ghost use Rattle.std.specs.Prelude.{◌≡◌, ◌↔◌, ◌-ℤ◌, IfErr, IfOk, IsTrue, Some};
ghost use Rattle.game_rules.specs.Game.{Goes, IsOccupiedBy, IsEmptySquare, Legal, Step, StandsOn, forward, man_at};
ghost use Rattle.game_laws.specs.Answer.{CanGo};
ghost use Rattle.chess_game.specs.Near.{IsNear};
ghost use Rattle.chess_game.specs.Refusal.{IsRefusal};

use crate::attack::{bears, in_check};
use crate::board::Board;
use crate::piece::Piece;
use game_rules::{Kind, Side, Square};

/// Why a move is refused: the first reason that applies, in this order (FIDE Laws, Articles 3.1 to 3.10).
#[derive(Clone, Copy, PartialEq, Eq)]
pub enum Illegal {
    /// The number is 0 or exceeds the number of men.
    NoSuchMan,
    /// The man belongs to the side that is not to move.
    NotYours,
    /// The man is captured.
    Captured,
    /// A live man of the mover's side, or the man himself, stands on the square.
    OwnMan,
    /// The man cannot go there.
    NotReached,
    /// The king of the side that moved would be attacked.
    KingLeft,
}

/// A move: the man of this number goes to (x, y).
#[derive(Clone, Copy, PartialEq, Eq)]
pub struct Move {
    pub man: u8,
    pub x: i64,
    pub y: i64,
}

/// Whether the man stands on the square.
fn stands_on(man: &Piece, square: Square) -> bool
    ensures { IsTrue result ↔ StandsOn man.now square }
{
    man.square() == Some(square)
}

/// Whether the man is of the side and stands on the square.
fn is_held_by(man: &Piece, side: Side, square: Square) -> bool
    ensures { IsTrue result ↔ ((man.now.side ≡ side) × StandsOn man.now square) }
{
    man.side() == side && stands_on(man, square)
}

/// Whether a live man of the side stands on the square.
fn holds(board: &Board, side: Side, square: Square) -> bool
    ensures { IsTrue result ↔ IsOccupiedBy board.now side square }
{
    board.men().iter().any(|man| is_held_by(man, side, square))
}

/// Whether no live man stands on the square.
fn is_empty(board: &Board, square: Square) -> bool
    ensures { IsTrue result ↔ IsEmptySquare board.now square }
{
    !board.men().iter().any(|man| stands_on(man, square))
}

/// Returns the square from which a pawn of the side steps straight ahead onto this one.
fn square_behind(side: Side, square: Square) -> Square
    requires { IsNear square }
    ensures { result ≡ record { x = square.x; y = square.y -ℤ forward side } }
{
    let y = match side {
        Side::White => square.y - 1,
        Side::Black => square.y + 1,
    };
    Square { x: square.x, y }
}

/// Whether the man may go to the square, on which none of his side stands.
fn goes(board: &Board, man: &Piece, to: Square) -> bool
    requires { IsNear to }
    ensures { IsTrue result ↔ Goes board.now man.now to }
{
    let setup = board.setup();
    match man.kind() {
        Kind::Pawn => {
            (bears(&setup, man, to) && holds(board, man.side().other(), to))
                || (stands_on(man, square_behind(man.side(), to)) && is_empty(board, to))
        }
        _ => bears(&setup, man, to),
    }
}

/// Returns the position after the man of this number has gone to the square, if he may go there apart from the safety
/// of his king.
pub(crate) fn try_step(board: &Board, number: usize, to: Square) -> Result<Board, Illegal>
    requires { IsNear to }
    ensures legal { IfOk result (Legal board.now number to) }
    ensures refused { IfErr result (IsRefusal board.now number to) }
{
    let Some(man) = board.man(number) else {
        return Err(Illegal::NoSuchMan);
    };
    if man.side() != board.turn() {
        return Err(Illegal::NotYours);
    }
    if man.square().is_none() {
        return Err(Illegal::Captured);
    }
    if holds(board, board.turn(), to) {
        return Err(Illegal::OwnMan);
    }
    if !goes(board, &man, to) {
        return Err(Illegal::NotReached);
    }
    let after = board.after(number, to);
    if in_check(&after.setup(), board.turn()) {
        return Err(Illegal::KingLeft);
    }
    Ok(after)
}

/// Returns whether the man has a legal move to the square.
pub(crate) fn can_go(board: &Board, number: usize, to: Square) -> bool
    requires { IsNear to }
    ensures { IsTrue result ↔ CanGo board.now number to }
{
    matches!(try_step(board, number, to), Ok(_))
}
