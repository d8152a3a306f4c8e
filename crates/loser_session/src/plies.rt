//! The side to move at a ply, and the sets that its moves must reach there.
ghost use Rattle.std.specs.Prelude.{◌≡◌, ◌<◌, length, true, false};
ghost use Rattle.game_rules.specs.Game.{other};
ghost use Rattle.mate_plan.specs.Plan.{turn_at};
ghost use Rattle.loser_session.specs.Unwon.{sets_into as into_ply};

use auto_core::Auto;
use chess_game::Side;
use winning_sets::{PlySets, Solved};

/// Returns the side to move after `ply` moves.
fn side_at(first: Side, ply: u8) -> Side
    ensures { result ≡ turn_at first ply }
{
    if ply % 2 == 0 { first } else { first.other() }
}

/// Returns whether it is the winner's turn at a ply.
pub(crate) fn is_winners(solved: &Solved, ply: u8) -> bool
    ensures his { result ≡ true → turn_at solved.now.position.turn ply ≡ solved.now.winner }
    ensures not_his { result ≡ false → turn_at solved.now.position.turn ply ≡ other solved.now.winner }
{
    side_at(solved.position().turn(), ply) == solved.winner()
}

/// Returns the sets that moves must reach at a ply: the sets of unwon positions if it is the winner's turn there, and
/// the reached sets if it is the loser's, since no reached position is won then.
pub(crate) fn sets_into<'a>(solved: &'a Solved, plies: &'a [PlySets], ply: u8) -> &'a [Auto]
    requires { ply < length plies.now }
    ensures { result.now ≡ into_ply solved.now plies.now ply }
{
    if is_winners(solved, ply) {
        plies[ply as usize].as_slice()
    } else {
        solved.reached_sets(ply)
    }
}
