//! The contents of a text that is being read.

ghost use Rattle.std.specs.Prelude.{◌≡◌, ◌<◌, ◌≤◌, length};
ghost use Rattle.chess_text.specs.Draft.{nobody, with_man};
ghost use Rattle.chess_text.specs.declared.draft.TheConstants.{MOST_READ};

use chess_game::{Kind, Man, Place, Side};
use std::marker::Model;

/// The greatest number of men of a text of any kind.
pub const MOST_READ: usize = 32;

/// The contents of a text: its men, the side to move, and the winner, the side that is to mate.
#[derive(Drop)]
pub struct Draft {
    turn: Side,
    winner: Side,
    men: [Man; MOST_READ],
    count: usize,
}

impl Model for Draft {
    ghost use Rattle.std.specs.Prelude.{take};
    ghost use Rattle.chess_text.specs.Draft.{Draft as Says};

    ghost Value = { Says };

    ghost view = { λ d. record { men = take d.count d.men; turn = d.turn; winner = d.winner } };

    ghost use Rattle.chess_text.specs.Gathering.{IsTidy};

    ghost invariant = { IsTidy };
}

impl Draft {
    /// Creates a draft without men.
    pub fn new(turn: Side, winner: Side) -> Self
        ensures { result ≡ nobody turn winner }
    {
        let nobody = Man {
            side: Side::White,
            kind: Kind::King,
            place: Place::Gone,
        };
        Draft {
            turn,
            winner,
            men: [nobody; MOST_READ],
            count: 0,
        }
    }

    /// Adds a man after the others.
    pub fn push(&mut self, man: Man)
        requires { length self.old.men < MOST_READ }
        ensures { self.new ≡ with_man self.old man }
    {
        self.men[self.count] = man;
        self.count += 1;
    }

    /// Returns the men.
    pub fn men(&self) -> &[Man]
        ensures men { result.now ≡ self.now.men }
        ensures most { length result.now ≤ MOST_READ }
    {
        &self.men[..self.count]
    }

    /// Returns the side to move.
    pub fn turn(&self) -> Side
        ensures { result ≡ self.now.turn }
    {
        self.turn
    }

    /// Returns the winner.
    pub fn winner(&self) -> Side
        ensures { result ≡ self.now.winner }
    {
        self.winner
    }
}
