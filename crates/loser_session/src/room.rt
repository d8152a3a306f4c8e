//! The room that a search needs.
ghost use Rattle.std.specs.Prelude.{◌≡◌, ◌≤◌, All, length};
ghost use Rattle.winning_sets.specs.Solve.{end_of};
ghost use Rattle.loser_session.specs.Unwon.{HaveRoom};

use crate::plies::sets_into;
use auto_core::Auto;
use winning_sets::{PlySets, Solved};

/// At least as many states as each of the sets has.
fn most_in(sets: &[Auto]) -> u32
    ensures { All (λ a. length a.accept ≤ result) sets.now }
{
    let mut most: u32 = 0;
    for set in sets {
        most = most.max(set.states());
    }
    most
}

/// Returns at least the greatest number of states of the sets that moves must reach.
pub(crate) fn most_states(solved: &Solved, plies: &[PlySets]) -> u32
    requires { length plies.now ≡ end_of solved.now }
    ensures { HaveRoom result solved.now plies.now }
{
    let mut most: u32 = 0;
    let last = solved.last_ply();
    for ply in 0..last {
        most = most.max(most_in(sets_into(solved, plies, ply)));
    }
    most
}
