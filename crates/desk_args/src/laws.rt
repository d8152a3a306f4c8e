//! Laws of the arguments. Each is the contract of a function that does nothing.
ghost use Rattle.std.specs.Prelude.{◌≡◌, ◌^◌};

use crate::order::{DEFAULT_STATES, MOST_CROWD_MOVES, MOST_NAMED_STATES};
use limits::{MOST_FILE_BYTES, MOST_LINE_BYTES, MOST_MOVES};

/// States the documented limits as numbers: of moves, of a crowd's moves, of states if a budget is named and if none
/// is, and of the bytes of a strategy file and of a line.
pub fn limits_are()
    ensures moves { MOST_MOVES ≡ 20 }
    ensures crowd { MOST_CROWD_MOVES ≡ 2 }
    ensures states { MOST_NAMED_STATES ≡ 200000 }
    ensures default { DEFAULT_STATES ≡ 50000 }
    ensures file { MOST_FILE_BYTES ≡ 2 ^ 28 }
    ensures line { MOST_LINE_BYTES ≡ 200 }
{}
