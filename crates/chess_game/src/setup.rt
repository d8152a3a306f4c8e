//! Men in any number, and the side to move.

ghost use Rattle.std.specs.Prelude.{◌≡◌, ◌≤◌, length};
ghost use Rattle.game_rules.specs.Game.{man_at};

use crate::piece::Piece;
use game_rules::Side;
use std::marker::Model;

/// Men in the order of their numbers, and the side to move. Queries that a [`Board`](crate::board::Board) of at most
/// eight men and a crowd share take this type.
#[derive(Drop)]
pub(crate) struct Setup<'a> {
    men: &'a [Piece],
    turn: Side,
}

impl<'a> Model for Setup<'a> {
    ghost use Rattle.game_rules.specs.Game.{Position};
    ghost use Rattle.std.specs.Prelude.{◌≤◌, length};

    ghost Value = { Position };

    ghost view = { λ s. record { men = s.men.now; turn = s.turn } };

    ghost invariant = { λ s. length s.men.now ≤ 255 };
}

impl<'a> Setup<'a> {
    pub(crate) fn new(men: &'a [Piece], turn: Side) -> Setup<'a>
        requires { length men.now ≤ 255 }
        ensures { result ≡ record { men = men.now; turn = turn } }
    {
        Setup { men, turn }
    }

    pub(crate) fn count(&self) -> u8
        ensures { result ≡ length self.now.men }
    {
        self.men.len() as u8
    }

    pub(crate) fn turn(&self) -> Side
        ensures { result ≡ self.now.turn }
    {
        self.turn
    }

    /// Returns the men in the order of their numbers.
    pub(crate) fn men(&self) -> &[Piece]
        ensures { result.now ≡ self.now.men }
    {
        self.men
    }

    /// Returns the man of this number, counted from 1.
    pub(crate) fn man(&self, number: usize) -> Option<Piece>
        ensures { result ≡ man_at self.now number }
    {
        if number == 0 {
            return None;
        }
        self.men.get(number - 1).copied()
    }
}
