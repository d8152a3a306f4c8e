//! The fields before the sets, with their men as a position.

ghost use Rattle.std.specs.Prelude.{◌≤◌, length};
ghost use Rattle.limits.specs.declared.numbers.TheConstants.{MOST_MOVES};
ghost use Rattle.game_rules.specs.Game.{SoundWithKings};
ghost use Rattle.game_laws.specs.Soundness.{SoundWithKings-prop};
ghost use Rattle.strategy_file.specs.Versions.{most_men};

use crate::version::Version;
use chess_game::{Position, Side};

/// The fields before the sets: a number of moves within the limit, and a sound position with a king on each side and at
/// most as many men as the version allows.
#[derive(Clone, Copy)]
pub(crate) struct FileHead {
    pub(crate) version: Version,
    pub(crate) winner: Side,
    pub(crate) moves: u8,
    pub(crate) position: Position,
    ghost within: { moves ≤ MOST_MOVES },
    ghost few: { length position.men ≤ most_men version },
    ghost sound: { SoundWithKings position } by { SoundWithKings-prop position },
}
