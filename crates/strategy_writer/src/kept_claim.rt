//! A claim whose sets are automata that share nodes.

ghost use Rattle.std.specs.Prelude.{◌≤◌, ◌^◌, length};

use auto_core::Auto;
use chess_game::{Position, Side};

/// The kept set of a ply and a mask. Its rows share nodes: as a table it could be larger than any file.
#[derive(Drop)]
pub(crate) struct KeptSet {
    pub(crate) ply: u8,
    pub(crate) mask: u8,
    pub(crate) set: Auto,
}

/// The claim of a solved position, or one with its sets reduced.
#[derive(Drop)]
pub(crate) struct KeptClaim {
    pub(crate) position: Position,
    pub(crate) winner: Side,
    pub(crate) moves: u8,
    pub(crate) sets: Vec<KeptSet>,
    ghost few: { length sets.items ≤ 2 ^ 16 },
}
