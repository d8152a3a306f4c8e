//! Men (pieces and pawns), places and squares.
ghost use Rattle.std.specs.Prelude.{◌≡◌};
ghost use Rattle.game_rules.specs.Game.{other};

/// One of the two players.
#[derive(Clone, Copy, PartialEq, Eq)]
pub enum Side {
    White,
    Black,
}

impl Side {
    /// Returns the other side.
    pub fn other(self) -> Side
        ensures { result ≡ other self }
    {
        match self {
            Side::White => Side::Black,
            Side::Black => Side::White,
        }
    }
}

/// The kind of a man: the six kinds of FIDE Laws, Article 2.2, and four kinds of fairy chess.
#[derive(Clone, Copy, PartialEq, Eq)]
pub enum Kind {
    King,
    Queen,
    Rook,
    Bishop,
    Knight,
    Pawn,
    /// Moves as a rook or as a knight.
    Chancellor,
    /// Moves as a bishop or as a knight.
    Archbishop,
    /// Moves as a queen or as a knight.
    Amazon,
    /// Makes one or more equal leaps of a knight over empty squares.
    Nightrider,
}

/// The place of a man: captured, or on a square. White's pawns move toward greater `y`.
#[derive(Clone, Copy, PartialEq, Eq)]
pub enum Place {
    /// The man is captured.
    Gone,
    At { x: i64, y: i64 },
}

/// One man of a position: his side, his kind and his place.
#[derive(Clone, Copy, PartialEq, Eq)]
pub struct Man {
    pub side: Side,
    pub kind: Kind,
    pub place: Place,
}

/// A square of the unbounded board. Its coordinates may exceed those of a [`Place`].
#[derive(Clone, Copy, PartialEq, Eq)]
pub struct Square {
    pub x: i128,
    pub y: i128,
}

/// One direction in which a man goes: a step, and whether it may be repeated over empty squares (`far`).
#[derive(Clone, Copy, PartialEq, Eq)]
pub struct Ray {
    pub dx: i8,
    pub dy: i8,
    pub far: bool,
}
