//! Men on squares that may lie outside the range of i64, with coordinates up to 2^68.

ghost use Rattle.std.specs.Prelude.{◌≡◌, ◌≢◌, ◌↔◌, IfSome, IsTrue};
ghost use Rattle.game_rules.specs.Game.{square_of};
ghost use Rattle.chess_game.specs.Near.{IsNarrow, IsNarrowMan, IsNear};

use game_rules::{Kind, Man, Place, Side, Square};
use std::marker::Model;

/// Returns the square (x, y).
pub(crate) fn square_at(x: i64, y: i64) -> Square
    ensures square { result ≡ record { x = x; y = y } }
    ensures near { IsNear result }
    ensures narrow { IsNarrow result }
{
    Square {
        x: i128::from(x),
        y: i128::from(y),
    }
}

/// A man whose place is stored as a square.
#[derive(Clone, Copy)]
pub(crate) struct Piece {
    side: Side,
    kind: Kind,
    square: Option<Square>,
}

impl Model for Piece {
    ghost use Rattle.std.specs.Prelude.{IfSome};
    ghost use Rattle.std.specs.Option.{ForSome};
    ghost use Rattle.std.proofs.Common.{ap};
    ghost use Rattle.game_rules.specs.declared.men.Man.{Man};
    ghost use Rattle.chess_game.specs.Near.{IsNear};

    ghost Value = { Man };

    ghost use Rattle.chess_game.specs.Piece.{man_of, piece_of, square_again};

    ghost view = { man_of };

    ghost invariant = { λ a. ForSome a.square IsNear };

    ghost inverse = { piece_of };

    ghost inverse_ok = { λ a _. ap (λ s. record { side = a.side; kind = a.kind; square = s }) (square_again a.square) };
}

impl Piece {
    pub(crate) fn new(man: Man) -> Piece
        ensures man { result ≡ man }
        ensures narrow { IsNarrowMan result }
    {
        let square = match man.place {
            Place::Gone => None,
            Place::At { x, y } => Some(square_at(x, y)),
        };
        Piece {
            side: man.side,
            kind: man.kind,
            square,
        }
    }

    pub(crate) fn side(&self) -> Side
        ensures { result ≡ self.now.side }
    {
        self.side
    }

    pub(crate) fn kind(&self) -> Kind
        ensures { result ≡ self.now.kind }
    {
        self.kind
    }

    pub(crate) fn is_live(&self) -> bool
        ensures { IsTrue result ↔ (self.now.place ≢ Place.Gone) }
    {
        self.square.is_some()
    }

    /// Returns his square if he is live.
    pub(crate) fn square(&self) -> Option<Square>
        ensures square { result ≡ square_of self.now }
        ensures near { IfSome result IsNear }
    {
        self.square
    }

    /// Converts the man, who stands on a square with i64 coordinates.
    pub(crate) fn man(&self) -> Man
        requires { IsNarrowMan self.now }
        ensures { result ≡ self.now }
    {
        let place = match self.square {
            None => Place::Gone,
            Some(square) => Place::At {
                x: square.x as i64,
                y: square.y as i64,
            },
        };
        Man {
            side: self.side,
            kind: self.kind,
            place,
        }
    }

    /// Returns the same man on another square.
    pub(crate) fn placed(&self, square: Square) -> Piece
        requires { IsNear square }
        ensures { result ≡ record self.now { place = Place.At square.x square.y } }
    {
        Piece {
            square: Some(square),
            ..*self
        }
    }

    /// Returns the same man, captured.
    pub(crate) fn taken(&self) -> Piece
        ensures { result ≡ record self.now { place = Place.Gone } }
    {
        Piece {
            square: None,
            ..*self
        }
    }
}
