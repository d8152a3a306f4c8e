//! Solved positions.
ghost use Rattle.std.specs.Prelude.{◌≡◌, ◌↔◌, ◌+◌, ◌≤◌, ℕ, [], slice_index_or, IfSome, IsTrue, length, option_copied};
ghost use Rattle.game_rules.specs.Game.{Value};
ghost use Rattle.rule_formula.specs.Fits.{masks_of};
ghost use Rattle.game_laws.specs.Stock.{HasStock};
ghost use Rattle.winning_sets.specs.Claimed.{IsValid, IsWonClaim, solution_of};
ghost use Rattle.winning_sets.specs.Solve.{HasCoordinates, IsKeptIn, IsMostStates, IsSolution, end_of, kept_at, planned, reach_at, states_of};

use crate::claimed::ClaimedSets;
use crate::origin::Origin;
use crate::place::{set_at, sets_of_ply};
use crate::ply_sets::PlySets;
use crate::stock::has_stock;
use crate::turns::{last_ply, side_at};
use auto_core::Auto;
use chess_game::{Position, Side};
use limits::MOST_STATES;
use mask_sets::MaskSets;
use std::alloc::Global;
use std::marker::Model;

/// A solved position: the sets of the positions reached from it, and of those from which the winner still mates in
/// time; or the sets of a won claim. A set is over the coordinates of the live men, two for each man, in the order of
/// the men.
#[derive(Drop)]
pub struct Solved {
    origin: Origin,
    position: Position,
    winner: Side,
    moves: u8,
    masks: Vec<u8>,
    kept: Vec<PlySets>,
    reach: Vec<PlySets>,
}

impl Model for Solved {
    ghost use Rattle.std.specs.Prelude.{◌≡◌};
    ghost use Rattle.rule_formula.specs.Fits.{masks_of};
    ghost use Rattle.winning_sets.specs.Claimed.{IsValid};
    ghost use Rattle.winning_sets.specs.Solve.{Solution};

    ghost Value = { Solution };

    ghost view = { λ s.
        record {
          origin = s.origin;
          position = s.position;
          winner = s.winner;
          moves = s.moves;
          kept = s.kept.items;
          reach = s.reach.items;
        } };

    ghost invariant = { λ s. IsValid
        (record {
          origin = s.origin;
          position = s.position;
          winner = s.winner;
          moves = s.moves;
          kept = s.kept.items;
          reach = s.reach.items;
        })
        × (s.masks.items ≡ masks_of s.position) };
}

impl Solved {
    /// Creates a solution from the sets of its plan, ply by ply, and at each ply in the order of the masks.
    pub(crate) fn new(
        position: Position,
        winner: Side,
        moves: u8,
        masks: Vec<u8>,
        kept: Vec<PlySets>,
        reach: Vec<PlySets>,
    ) -> Solved
        requires masks { masks.items ≡ masks_of position }
        requires valid { IsSolution (planned position winner moves kept.items reach.items) }
        ensures { result ≡ planned position winner moves kept.items reach.items }
    {
        Solved {
            origin: Origin::Plan,
            position,
            winner,
            moves,
            masks,
            kept,
            reach,
        }
    }

    /// Creates a solution from the sets of a won claim. Allocates nothing.
    pub fn from_sets(alloc: Global, claimed: ClaimedSets) -> Solved
        requires masks { claimed.masks.items ≡ masks_of claimed.position }
        requires valid { IsWonClaim (solution_of claimed) }
        ensures { result ≡ solution_of claimed }
    {
        Solved {
            origin: Origin::Claim,
            position: claimed.position,
            winner: claimed.winner,
            moves: claimed.moves,
            masks: claimed.masks,
            kept: claimed.plies,
            reach: Vec::new(alloc),
        }
    }

    /// Returns the origin of the kept sets.
    pub fn origin(&self) -> Origin
        ensures { result ≡ self.now.origin }
    {
        self.origin
    }

    /// Returns the starting position.
    pub fn position(&self) -> Position
        ensures { result ≡ self.now.position }
    {
        self.position
    }

    /// Returns the winner, the side that mates.
    pub fn winner(&self) -> Side
        ensures { result ≡ self.now.winner }
    {
        self.winner
    }

    /// Returns the number of moves within which the winner mates.
    pub fn moves(&self) -> u8
        ensures { result ≡ self.now.moves }
    {
        self.moves
    }

    /// Returns the last ply, where it is the winner's turn and he has no move left.
    pub fn last_ply(&self) -> u8
        ensures { result ≡ end_of self.now }
    {
        last_ply(self.winner, self.position.turn(), self.moves)
    }

    /// Returns the kept or claimed set of a ply and a mask: the positions from which the winner mates in time. A claim
    /// has no sets at the plies of the winner.
    pub fn set(&self, ply: u8, mask: u8) -> Option<&Auto>
        ensures set { option_copied result ≡ kept_at self.now ply mask }
        ensures few { IfSome result (λ a. length a.now.accept ≤ MOST_STATES) }
        ensures valid { IsValid self.now }
    {
        set_at(self.masks.as_slice(), self.kept.as_slice(), ply, mask)
    }

    /// Returns the set of the positions reached at a ply with the live men of a mask. There is none if the plan has no
    /// step or the sets are claimed.
    pub fn reach(&self, ply: u8, mask: u8) -> Option<&Auto>
        ensures set { option_copied result ≡ reach_at self.now ply mask }
        ensures few { IfSome result (λ a. length a.now.accept ≤ MOST_STATES) }
        ensures valid { IsValid self.now }
    {
        set_at(self.masks.as_slice(), self.reach.as_slice(), ply, mask)
    }

    /// Returns the greatest number of states of the sets that `set` returns.
    pub fn most_states(&self) -> u32
        ensures most { IsMostStates self.now result }
        ensures few { result ≤ MOST_STATES }
    {
        let mut most: u32 = 0;
        for ply in 0..self.plies() {
            most = most.max(self.most_states_at(ply));
        }
        most
    }

    /// At how many plies there are kept sets.
    fn plies(&self) -> u8
        ensures plies { result ≡ end_of self.now + 1 }
        ensures valid { IsValid self.now }
    {
        last_ply(self.winner, self.position.turn(), self.moves) + 1
    }

    /// The greatest number of states among the kept sets of a ply.
    fn most_states_at(&self, ply: u8) -> u32
        ensures within { (mask : ℕ) → states_of (kept_at self.now ply mask) ≤ result }
        ensures least { (n : ℕ) → ((mask : ℕ) → states_of (kept_at self.now ply mask) ≤ n) → result ≤ n }
    {
        let mut most: u32 = 0;
        for mask in self.masks() {
            most = most.max(self.states(ply, *mask));
        }
        most
    }

    /// Returns the masks of the starting position in ascending order.
    pub fn masks(&self) -> &[u8]
        ensures masks { result.now ≡ masks_of self.now.position }
        ensures valid { IsValid self.now }
    {
        self.masks.as_slice()
    }

    /// Returns the kept sets of a ply in the order of the masks, and none after the last ply.
    pub fn kept_sets(&self, ply: u8) -> &[Auto]
        ensures sets { result.now ≡ slice_index_or self.now.kept ply [] }
        ensures valid { IsValid self.now }
    {
        sets_of_ply(self.kept.as_slice(), ply)
    }

    /// Returns the reached sets of a ply in the order of the masks. There are none if the plan has no step, after the
    /// last ply, and for a claim.
    pub fn reached_sets(&self, ply: u8) -> &[Auto]
        ensures sets { result.now ≡ slice_index_or self.now.reach ply [] }
        ensures valid { IsValid self.now }
    {
        sets_of_ply(self.reach.as_slice(), ply)
    }

    /// Returns the number of states of the set of a ply and a mask, 0 if there is no set.
    fn states(&self, ply: u8, mask: u8) -> u32
        ensures { result ≡ states_of (kept_at self.now ply mask) }
    {
        match self.set(ply, mask) {
            Some(set) => set.states(),
            None => 0,
        }
    }

    /// Returns whether the position of these men, with the turn of the ply, is in the set of its live men.
    pub fn keeps(&self, ply: u8, p: &Position) -> bool
        ensures keeps { IsTrue result ↔ IsKeptIn self.now ply p.now }
        ensures valid { IsValid self.now }
    {
        has_stock(&self.position, p)
            && p.turn() == side_at(self.position.turn(), ply)
            && self.has_tuple(ply, p)
    }

    /// Whether the coordinates of the position are in the set of its own live men.
    fn has_tuple(&self, ply: u8, p: &Position) -> bool
        requires { HasStock self.now.position.men p.now }
        ensures { IsTrue result ↔ HasCoordinates self.now ply p.now }
    {
        MaskSets::new(self.masks(), self.kept_sets(ply)).contains(p)
    }

    /// Returns whether the winner mates within the number of moves from the starting position.
    pub fn verdict(&self) -> bool
        ensures mates { IsTrue result ↔ Value self.now.winner self.now.moves self.now.position }
        ensures valid { IsValid self.now }
    {
        match self.origin {
            Origin::Plan => self.keeps(0, &self.position),
            Origin::Claim => true,
        }
    }
}
