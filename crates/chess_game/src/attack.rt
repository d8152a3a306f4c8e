//! Attacked squares.

ghost use Rattle.std.specs.Prelude.{◌≡◌, ◌↔◌, IsTrue};
ghost use Rattle.game_rules.specs.Game.{Attacked, Bears, InCheck, other, IsBetween, IsLiveAnd, IsOpen};
ghost use Rattle.chess_game.specs.Check.{IsAttackedKing};
ghost use Rattle.chess_game.specs.Near.{IsNear};

use crate::geometry::{is_between, is_single, offset_between, reaches};
use crate::piece::Piece;
use crate::setup::Setup;
use game_rules::{Kind, Side, Square};

/// Whether the man is live and strictly between the two squares.
fn stands_between(man: &Piece, from: Square, to: Square) -> bool
    requires from { IsNear from }
    requires to { IsNear to }
    ensures { IsTrue result ↔ IsLiveAnd man.now (IsBetween from to) }
{
    match man.square() {
        None => false,
        Some(square) => is_between(from, to, square),
    }
}

/// Returns whether no live man is strictly between the two squares. A single step passes over no square.
fn is_open(p: &Setup, from: Square, to: Square) -> bool
    requires from { IsNear from }
    requires to { IsNear to }
    ensures { IsTrue result ↔ IsOpen p.now from to }
{
    if is_single(offset_between(from, to)) {
        return true;
    }
    !p.men().iter().any(|man| stands_between(man, from, to))
}

/// Returns whether the man is live and bears on the square.
pub(crate) fn bears(p: &Setup, man: &Piece, to: Square) -> bool
    requires { IsNear to }
    ensures { IsTrue result ↔ Bears p.now man.now to }
{
    let Some(from) = man.square() else {
        return false;
    };
    reaches(man.side(), man.kind(), offset_between(from, to)) && is_open(p, from, to)
}

/// Returns whether the man belongs to the side, is live, and bears on the square.
pub(crate) fn attacks(p: &Setup, man: &Piece, by: Side, square: Square) -> bool
    requires { IsNear square }
    ensures { IsTrue result ↔ ((man.now.side ≡ by) × Bears p.now man.now square) }
{
    man.side() == by && bears(p, man, square)
}

/// Returns whether some live man of the side bears on the square.
pub(crate) fn is_attacked(p: &Setup, by: Side, square: Square) -> bool
    requires { IsNear square }
    ensures { IsTrue result ↔ Attacked p.now by square }
{
    p.men().iter().any(|man| attacks(p, man, by, square))
}

/// Returns whether the man is the side's king and is attacked by the other side.
fn is_king_attacked(setup: &Setup, man: &Piece, side: Side) -> bool
    ensures { IsTrue result ↔ IsAttackedKing setup.now side man.now }
{
    if man.side() != side || man.kind() != Kind::King {
        return false;
    }
    match man.square() {
        None => false,
        Some(square) => is_attacked(setup, side.other(), square),
    }
}

/// Returns whether the side's king is attacked by the other side.
pub(crate) fn in_check(setup: &Setup, side: Side) -> bool
    ensures { IsTrue result ↔ InCheck setup.now side }
{
    setup
        .men()
        .iter()
        .any(|man| is_king_attacked(setup, man, side))
}
