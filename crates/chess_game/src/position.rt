//! Positions and the queries on them.

ghost use Rattle.std.specs.Prelude.{◌≡◌, ◌≢◌, ◌↔◌, ◌≤◌, ◌^◌, ℕ, length, IfErr, IfNone, IfOk, IfSome, IsOk, IsSome, IsSomeAnd, IsTrue, OnErr, Some};
ghost use Rattle.game_rules.specs.Game.{Attacked, InCheck, IsMaskOf, Legal, Mate, Sound, SoundWithKings, man_at};
ghost use Rattle.chess_game.specs.Unsoundness.{IsFirstUnsoundness, StandsAt};
ghost use Rattle.chess_game.specs.Near.{IsNarrow};
ghost use Rattle.chess_game.specs.Way.{IsFree, IsHit, IsRayOf};
ghost use Rattle.chess_game.specs.Refusal.{IsRefusal};
ghost use Rattle.chess_game.specs.declared.position.TheConstants.{MOST_CROWD};

use crate::answers::is_mated;
use crate::attack::{self, is_attacked};
use crate::board::{Board, nobody, place};
use crate::moves::{Illegal, Move, try_step};
use crate::piece::square_at;
use crate::setup::Setup;
use crate::unsoundness::{Unsound, check_setup};
use crate::way::{Frame, Way, way_from};
use game_rules::{Man, Place, Ray, Side, Square};
use std::marker::Model;

/// A position: two to eight men, numbered from 1, and the side to move.
#[derive(Clone, Copy)]
pub struct Position {
    board: Board,
}

impl Model for Position {
    ghost use Rattle.game_rules.specs.Game.{Position as Board};
    ghost use Rattle.chess_game.specs.Near.{IsNarrowPosition};

    ghost Value = { Board };

    ghost view = { λ a. a.board };

    ghost invariant = { λ a. IsNarrowPosition a.board };

    ghost inverse = { λ p. record { board = p } };
}

impl Position {
    /// Creates the position of these men. Returns `None` unless there are two to eight of them.
    pub fn new(men: &[Man], turn: Side) -> Option<Position>
        ensures holds { IsSome result ↔ ((2 ≤ length men.now) × (length men.now ≤ 8)) }
        ensures position { IfSome result (λ p. p ≡ record { men = men.now; turn = turn }) }
    {
        if men.len() < 2 || men.len() > 8 {
            return None;
        }
        Some(Position {
            board: Board::new(men, turn),
        })
    }

    /// Returns the number of men, captured ones included: 2 to 8.
    pub fn count(&self) -> u8
        ensures count { result ≡ length self.now.men }
        ensures least { 2 ≤ result }
        ensures most { result ≤ 8 }
    {
        self.board.count()
    }

    /// Returns the side to move.
    pub fn turn(&self) -> Side
        ensures { result ≡ self.now.turn }
    {
        self.board.turn()
    }

    /// Returns the man of this number, counted from 1.
    pub fn man(&self, number: u8) -> Man
        requires first { 1 ≤ number }
        requires last { number ≤ length self.now.men }
        ensures { man_at self.now number ≡ Some result }
    {
        self.board.men()[number as usize - 1].man()
    }

    /// Returns the bit mask of the live men: bit `i - 1` is 1 if and only if man `i` is live.
    pub fn mask(&self) -> u8
        ensures { IsMaskOf self.now result }
    {
        self.board.mask()
    }
}

/// Returns whether some live man of the side bears on the square (x, y) (FIDE Laws, Article 3.1.2).
pub fn attacked(p: &Position, by: Side, x: i64, y: i64) -> bool
    ensures { IsTrue result ↔ Attacked p.now by (record { x = x; y = y }) }
{
    is_attacked(&p.board.setup(), by, square_at(x, y))
}

/// Returns whether the king of the side to move is attacked (FIDE Laws, Article 3.9.1).
pub fn in_check(p: &Position) -> bool
    requires { Sound p.now }
    ensures { IsTrue result ↔ InCheck p.now p.now.turn }
{
    attack::in_check(&p.board.setup(), p.board.turn())
}

/// Returns the position after the move. The error is the first reason why the move is not legal.
pub fn try_move(p: &Position, mv: Move) -> Result<Position, Illegal>
    requires { Sound p.now }
    ensures legal { IfOk result (Legal p.now mv.man (record { x = mv.x; y = mv.y })) }
    ensures reason { IfErr result (IsRefusal p.now mv.man (record { x = mv.x; y = mv.y })) }
    ensures illegal { OnErr result ((q : Position) → Legal p.now mv.man (record { x = mv.x; y = mv.y }) q → ⊥) }
{
    match try_step(&p.board, mv.man as usize, square_at(mv.x, mv.y)) {
        Ok(board) => Ok(Position { board }),
        Err(reason) => Err(reason),
    }
}

/// Returns whether the side to move is mated on the unbounded board (FIDE Laws, Article 5.1.1). Moves to squares
/// outside the range of i64 are tried too.
///
/// Only a move of the king, or of another man to the checking man's square or between him and the king, ends a check.
/// Each ray of a man meets at most one of these squares. So at most one move is tried for each ray of each man: at most
/// 104, for a king and six amazons. Each trial, and the search for the checking man, compares each man with each man.
pub fn mated(p: &Position) -> bool
    requires { Sound p.now }
    ensures { IsTrue result ↔ Mate p.now }
{
    is_mated(&p.board)
}

/// Returns whether the setup is sound with a king on each side. The error is the first reason why not.
#[tactic(auto, using(crate::proofs::UnsoundnessLemmas::unsound_refuted))]
fn soundness_of(setup: &Setup) -> Result<(), Unsound>
    ensures ok { IsOk result ↔ SoundWithKings setup.now }
    ensures reason { IfErr result (IsFirstUnsoundness setup.now) }
{
    check_setup(setup)
}

/// Returns whether the position is sound with a king on each side. The error is the first reason why not.
pub fn soundness(p: &Position) -> Result<(), Unsound>
    ensures ok { IsOk result ↔ SoundWithKings p.now }
    ensures reason { IfErr result (IsFirstUnsoundness p.now) }
{
    soundness_of(&p.board.setup())
}

/// The greatest number of men of a crowd, which may have more men than a [`Position`].
pub const MOST_CROWD: usize = 32;

/// Returns whether these men, numbered from 1, and this side to move are a sound position with a king on each side.
/// Like [`soundness`], for a crowd. The error is the first reason why not.
pub fn crowd_soundness(men: &[Man], turn: Side) -> Result<(), Unsound>
    requires { length men.now ≤ MOST_CROWD }
    ensures ok { IsOk result ↔ SoundWithKings (record { men = men.now; turn = turn }) }
    ensures reason { IfErr result (IsFirstUnsoundness (record { men = men.now; turn = turn })) }
{
    let mut pieces = [nobody(); MOST_CROWD];
    place(&mut pieces[..men.len()], men);
    let setup = Setup::new(&pieces[..men.len()], turn);
    soundness_of(&setup)
}

/// The square of a live man.
fn square_of_man(p: &Position, number: u8) -> Square
    requires { IsSomeAnd (man_at p.now number) (λ m. m.place ≢ Place.Gone) }
    ensures stands { StandsAt p.now number result }
    ensures narrow { IsNarrow result }
{
    match p.man(number).place {
        Place::At { x, y } => square_at(x, y),
        Place::Gone => unreachable!(),
    }
}

/// Returns how far the man may go along a ray of his kind, over empty squares inside the frame. `hits` is the first man
/// on the ray inside the frame, of either side; on a near ray only a man at distance 1 counts. If several men stand on
/// that square, it is the man with the least number.
pub fn free_way(p: &Position, man: u8, ray: Ray, frame: Frame) -> Way
    requires { IsSomeAnd (man_at p.now man) (λ m. (m.place ≢ Place.Gone) × IsRayOf m ray) }
    ensures distances { (t : ℕ) → ((result.near ≤ t) × (t ≤ result.far)) ↔ IsFree p.now man ray frame t }
    ensures none { ((t : ℕ) → IsFree p.now man ray frame t → ⊥) → (result.near ≡ 1) × (result.far ≡ 0) }
    ensures bound { result.far ≤ 2 ^ 64 }
    ensures hit { IfSome result.hits (IsHit p.now man ray frame) }
    ensures no_hit { IfNone result.hits ((i : ℕ) → IsHit p.now man ray frame i → ⊥) }
{
    let from = square_of_man(p, man);
    way_from(&p.board, from, ray, frame)
}
