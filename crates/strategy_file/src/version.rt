//! Versions of strategy files.

ghost use Rattle.std.specs.Prelude.{◌≡◌, ◌≤◌, ◌↔◌, IsTrue};
ghost use Rattle.std.specs.List.{All};
ghost use Rattle.strategy_file.specs.Fitting.{FitsVersion};
ghost use Rattle.strategy_file.specs.Numbers.{kind_byte};
ghost use Rattle.strategy_file.specs.Versions.{most_kind, most_men, most_turn, version_byte, version_of};

use crate::numbers::{kind_number, turn_number};
use chess_game::{Position, Side};

/// The version of a file, which determines how the rows of its sets are stored. Everything else is the same in both
/// versions, except for the greatest values of some bytes.
#[derive(Clone, Copy, PartialEq, Eq)]
pub enum Version {
    /// Version 1: a row has a state for each letter.
    Dense,
    /// Version 2: a row is a state or a node, and rows share their nodes.
    Shared,
}

impl Version {
    /// Returns whether a file of the version can have this winner and the men of the position.
    pub fn fits(self, winner: Side, position: &Position) -> bool
        ensures { IsTrue result ↔ FitsVersion self winner position.now }
    {
        if turn_number(winner, position.turn()) > self.most_turn() {
            return false;
        }
        if position.count() > self.most_men() {
            return false;
        }
        self.has_kinds_of(position)
    }

    /// Whether a file of the version has numbers for the kinds of the men.
    fn has_kinds_of(self, position: &Position) -> bool
        ensures { IsTrue result ↔ All (λ m. kind_byte m.kind ≤ most_kind self) position.now.men }
    {
        for n in 0..position.count() {
            if kind_number(position.man(n + 1).kind) > self.most_kind() {
                return false;
            }
        }
        true
    }

    /// Returns the version of a number, 1 or 2.
    pub(crate) fn of_byte(byte: u8) -> Version
        ensures { result ≡ version_of byte }
    {
        match byte {
            0 | 1 => Version::Dense,
            _ => Version::Shared,
        }
    }

    /// Returns the number of the version in a file.
    pub fn byte(self) -> u8
        ensures { result ≡ version_byte self }
    {
        match self {
            Version::Dense => 1,
            Version::Shared => 2,
        }
    }

    /// Returns the greatest number for the side to move and the winner.
    pub(crate) fn most_turn(self) -> u8
        ensures { result ≡ most_turn self }
    {
        match self {
            Version::Dense => 1,
            Version::Shared => 3,
        }
    }

    /// Returns the greatest number of men of a file.
    pub(crate) fn most_men(self) -> u8
        ensures most { result ≡ most_men self }
        ensures few { result ≤ 8 }
    {
        match self {
            Version::Dense => 5,
            Version::Shared => 8,
        }
    }

    /// Returns the greatest number of a kind of man.
    pub(crate) fn most_kind(self) -> u8
        ensures { result ≡ most_kind self }
    {
        match self {
            Version::Dense => 5,
            Version::Shared => 9,
        }
    }
}
