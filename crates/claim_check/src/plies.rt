//! The plies of the loser.
ghost use Rattle.std.specs.Prelude.{◌≡◌, ◌≤◌, All, IfOk};
ghost use Rattle.claim_check.specs.Plies.{AreFew, plies_in};
ghost use Rattle.mate_plan.specs.Claim.{losers_plies as plies_of};

use chess_game::Side;
use limits::MOST_MOVES;
use mate_plan::plies_before_turn;
use std::alloc::{AllocError, Global};

/// `count` plies, every second one from `first` on.
#[derive(Clone, Copy)]
pub(crate) struct Plies {
    pub(crate) first: u8,
    pub(crate) count: u8,
}

impl Plies {
    ghost use Rattle.std.specs.Prelude.{◌+◌, ◌*◌, ◌<◌};

    /// Returns the ply after `before` others.
    pub(crate) fn ply(self, before: u8) -> u8
        requires few { AreFew self }
        requires before { before < self.count }
        ensures is { result ≡ self.first + 2 * before }
        ensures low { result ≤ 41 }
    {
        self.first + 2 * before
    }

    /// Returns the plies in order.
    pub(crate) fn list(self, alloc: Global) -> Result<Vec<u8>, AllocError>
        requires few { AreFew self }
        ensures list { IfOk result (λ plies. plies.items ≡ plies_in self) }
        ensures low { IfOk result (λ plies. All (λ ply. ply ≤ 41) plies.items) }
    {
        let mut plies = Vec::new(alloc);
        for before in 0..self.count {
            plies.push(self.ply(before))?;
        }
        Ok(plies)
    }
}

/// Returns the plies of the loser, given the winner and the side that moves first.
pub(crate) fn losers_plies(winner: Side, first: Side, moves: u8) -> Plies
    requires { moves ≤ MOST_MOVES }
    ensures plies { plies_in result ≡ plies_of winner first moves }
    ensures few { AreFew result }
{
    Plies {
        first: plies_before_turn(winner.other(), first),
        count: moves + plies_before_turn(winner, first),
    }
}
