//! Plies and turns.
ghost use Rattle.std.specs.Prelude.{◌≡◌, ◌≤◌};
ghost use Rattle.mate_plan.specs.Plan.{turn_at};
ghost use Rattle.mate_plan.specs.PlanOf.{last_ply as last_of};

use chess_game::Side;
use limits::MOST_MOVES;
use mate_plan::plies_before_turn;

/// Returns the side to move after `ply` moves.
pub(crate) fn side_at(first: Side, ply: u8) -> Side
    ensures { result ≡ turn_at first ply }
{
    if ply % 2 == 0 { first } else { first.other() }
}

/// Returns the last ply of a plan, where it is the winner's turn and he has no move left.
pub(crate) fn last_ply(winner: Side, first: Side, moves: u8) -> u8
    requires { moves ≤ MOST_MOVES }
    ensures last { result ≡ last_of winner first moves }
    ensures few { result ≤ 41 }
{
    2 * moves + plies_before_turn(winner, first)
}
