//! Laws of the definitions. Each is the contract of a function that does nothing.
ghost use Rattle.play_loop.specs.Laws.{OneReport, SomeLater, SomeReport};

use crate::player::Player;

/// States that a game and its lines have at most one report, for any player.
pub fn one_report<P: Player>()
    ensures { OneReport P.rules }
{}

/// States that each valid game has a report, whatever the lines are, from its start and from any later line on.
pub fn some_report<P: Player>()
    ensures whole { SomeReport P.rules P.is_kept }
    ensures later { SomeLater P.rules P.is_kept }
{}
