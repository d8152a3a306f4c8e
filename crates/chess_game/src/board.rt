//! Positions whose men may stand on squares outside the range of i64, with coordinates up to 2^68.

ghost use Rattle.std.specs.Int.{bit_at};
ghost use Rattle.std.specs.Prelude.{◌≡◌, ◌≢◌, ◌↔◌, ◌+◌, ◌^◌, ◌<◌, ◌≤◌, ℕ, length, slice_get, slice_index_or, Some};
ghost use Rattle.game_rules.specs.Game.{IsAfter, IsLeftBy, IsMaskOf, man_at};
ghost use Rattle.game_rules.specs.declared.men.Man.{Man};
ghost use Rattle.chess_game.specs.Going.{AreLeftBut, GoesTo};
ghost use Rattle.chess_game.specs.Mask.{IsMaskBelow};
ghost use Rattle.chess_game.specs.Storage.{nobody};
ghost use Rattle.chess_game.specs.Near.{IsNarrowMan, IsNarrowPosition, IsNear};
ghost use Rattle.std.specs.List.{All};

use crate::piece::Piece;
use crate::setup::Setup;
use game_rules::{Kind, Man, Place, Side, Square};
use std::marker::Model;

/// Two to eight men, and the side to move.
#[derive(Clone, Copy)]
pub(crate) struct Board {
    men: [Piece; 8],
    count: usize,
    turn: Side,
}

impl Model for Board {
    ghost use Rattle.game_rules.specs.Game.{Position};

    ghost Value = { Position };

    ghost use Rattle.chess_game.specs.Storage.{IsTidy, board_again, board_of, position_of};

    ghost view = { position_of };

    ghost invariant = { IsTidy };

    ghost inverse = { board_of };

    ghost inverse_ok = { board_again };
}

impl Board {
    /// Creates the position of these men.
    pub(crate) fn new(men: &[Man], turn: Side) -> Board
        requires low { 2 ≤ length men.now }
        requires high { length men.now ≤ 8 }
        ensures position { result ≡ record { men = men.now; turn = turn } }
        ensures narrow { IsNarrowPosition result }
    {
        let mut all = [nobody(); 8];
        place(&mut all[..men.len()], men);
        Board {
            men: all,
            count: men.len(),
            turn,
        }
    }

    pub(crate) fn count(&self) -> u8
        ensures count { result ≡ length self.now.men }
        ensures least { 2 ≤ result }
        ensures most { result ≤ 8 }
    {
        self.count as u8
    }

    pub(crate) fn turn(&self) -> Side
        ensures { result ≡ self.now.turn }
    {
        self.turn
    }

    /// Returns the men in the order of their numbers.
    pub(crate) fn men(&self) -> &[Piece]
        ensures men { result.now ≡ self.now.men }
        ensures few { length result.now ≤ 8 }
    {
        &self.men[..self.count]
    }

    /// Lends the men and the side to move.
    pub(crate) fn setup(&self) -> Setup<'_>
        ensures { result ≡ self.now }
    {
        Setup::new(self.men(), self.turn)
    }

    /// Returns the man of this number, counted from 1.
    pub(crate) fn man(&self, number: usize) -> Option<Piece>
        ensures { result ≡ man_at self.now number }
    {
        if number == 0 {
            return None;
        }
        self.men().get(number - 1).copied()
    }

    /// Returns the bit mask of the live men.
    pub(crate) fn mask(&self) -> u8
        ensures { IsMaskOf self.now result }
    {
        mask_of(self.men())
    }

    /// Returns the position after the man of this number has gone to the square.
    pub(crate) fn after(&self, number: usize, to: Square) -> Board
        requires first { 1 ≤ number }
        requires last { number ≤ length self.now.men }
        requires near { IsNear to }
        ensures { IsAfter self.now number to result }
    {
        let mut men = self.men;
        go(&mut men[..self.count], number - 1, to);
        Board {
            men,
            count: self.count,
            turn: self.turn.other(),
        }
    }
}

/// Returns a captured man, who fills the unused places of the array.
pub(crate) fn nobody() -> Piece
    ensures { result ≡ nobody }
{
    Piece::new(Man {
        side: Side::White,
        kind: Kind::King,
        place: Place::Gone,
    })
}

/// Returns the mask with the bit at `index` set.
fn with_bit(mask: u8, index: usize) -> u8
    requires { index < 8 }
    ensures set { bit_at result index ≡ 1 }
    ensures others { (k : ℕ) → k ≢ index → bit_at result k ≡ bit_at mask k }
    ensures bound { (n : ℕ) → index < n → mask < 2 ^ n → result < 2 ^ n }
{
    mask | (1 << index)
}

/// Returns the mask whose bits are 1 at the live men.
fn mask_of(men: &[Piece]) -> u8
    requires { length men.now ≤ 8 }
    ensures live { (k : ℕ) (m : Man) → slice_get men.now k ≡ Some m → (bit_at result k ≡ 1) ↔ (m.place ≢ Place.Gone) }
    ensures bound { result < 2 ^ length men.now }
{
    let mut mask = 0;
    for index in 0..men.len() {
        mask = marked(men, index, mask);
    }
    mask
}

/// Returns the mask with the bit of the man at `index` set if he is live.
fn marked(men: &[Piece], index: usize, mask: u8) -> u8
    requires few { length men.now ≤ 8 }
    requires within { index < length men.now }
    requires mask { IsMaskBelow men.now index mask }
    ensures { IsMaskBelow men.now (index + 1) result }
{
    if men[index].is_live() {
        with_bit(mask, index)
    } else {
        mask
    }
}

/// Writes the men over the front of `pieces`.
pub(crate) fn place(pieces: &mut [Piece], men: &[Man])
    requires { length pieces.old ≡ length men.now }
    ensures men { pieces.new ≡ men.now }
    ensures narrow { All IsNarrowMan men.now }
{
    for (i, man) in men.iter().enumerate() {
        pieces[i] = Piece::new(*man);
    }
}

/// Returns a man as he is after another one has gone to the square.
fn left_by(man: &Piece, to: Square) -> Piece
    ensures { IsLeftBy to man.now result }
{
    if man.square() == Some(to) {
        man.taken()
    } else {
        *man
    }
}

/// Puts the man at `index` on the square and captures any other man there.
fn go(men: &mut [Piece], index: usize, to: Square)
    requires within { index < length men.old }
    requires near { IsNear to }
    ensures same_count { length men.new ≡ length men.old }
    ensures mover { GoesTo to index men.old men.new }
    ensures others { AreLeftBut to index men.old men.new }
{
    let mover = men[index];
    for man in men.iter_mut() {
        *man = left_by(man, to);
    }
    men[index] = mover.placed(to);
}
