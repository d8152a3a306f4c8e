//! The differences between the kinds of texts.

ghost use Rattle.std.specs.Prelude.{◌≡◌, ◌↔◌, IsTrue};
ghost use Rattle.chess_text.specs.Grammar.{IsCoordinateOf, crowds, positions};

use chess_game::MOST_CROWD;

/// The number of bytes of a header.
pub const HEADER_BYTES: usize = 16;

/// The greatest number of men of a position text.
pub const MOST_MEN: usize = 8;

/// The grammar of a kind of text: its header, its greatest number of men, and its range of coordinates.
#[derive(Clone, Copy)]
pub struct Grammar {
    /// The first line.
    pub header: [u8; HEADER_BYTES],
    pub most_men: usize,
    /// The greatest absolute value of a coordinate. A coordinate has at most 64 bits in any case.
    pub farthest: u64,
}

impl Grammar {
    /// Returns the grammar of position texts: up to eight men, and coordinates of 64 bits.
    pub fn positions() -> Grammar
        ensures { result ≡ positions }
    {
        Grammar {
            header: *b"infinite chess 1",
            most_men: MOST_MEN,
            farthest: 1 << 63,
        }
    }

    /// Returns the grammar of crowd texts: up to 32 men, and coordinates small enough that sums over a few moves have
    /// 64 bits.
    pub fn crowds() -> Grammar
        ensures { result ≡ crowds }
    {
        Grammar {
            header: *b"infinite crowd 1",
            most_men: MOST_CROWD,
            farthest: 1 << 60,
        }
    }

    /// Returns whether the number is a coordinate in such texts.
    pub fn takes(&self, coordinate: i64) -> bool
        ensures { IsTrue result ↔ IsCoordinateOf self.now coordinate }
    {
        coordinate.unsigned_abs() <= self.farthest
    }
}
