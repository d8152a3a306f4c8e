//! A claim from a file, with its sets reduced and stored ply by ply.
ghost use Rattle.std.specs.Prelude.{◌≡◌, ◌≤◌, ◌++◌, ◌∷◌, [], IfOk, OnOk, map, option_copied};
ghost use Rattle.std.specs.List.{AllZip};
ghost use Rattle.mate_plan.specs.Claim.{claimed_at};
ghost use Rattle.mate_plan.specs.SameClaim.{IsSameClaim};
ghost use Rattle.strategy_file.specs.ClaimedAutos.{automaton_in};
ghost use Rattle.strategy_file.specs.Claims.{claim_of, set_of};
ghost use Rattle.strategy_file.specs.Fitting.{HasFileOf};
ghost use Rattle.strategy_file.specs.StrategyFile.{places_with};
ghost use Rattle.winning_sets.specs.Claimed.{IsWonClaim, sets_from, solution_of};
ghost use Rattle.claim_check.specs.Plies.{AreFew, plies_in};
ghost use Rattle.claim_check.specs.Ready.{IsReady, claim_in};
ghost use Rattle.claim_check.specs.Reduced.{AreReduced, IsReducedOf};

use crate::plies::{Plies, losers_plies};
use auto_core::Auto;
use auto_reduce::reduce;
use chess_game::Side;
use limits::MOST_MOVES;
use mate_plan::PlanContext;
use rule_formula::masks;
use std::alloc::{AllocError, Global};
use std::marker::Model;
use strategy_file::{Claim, ClaimedSet};
use winning_sets::{ClaimedSets, PlySets, Solved, set_at};

/// A claim with its sets reduced, ready for its plan.
#[derive(Drop)]
pub(crate) struct ReducedClaim {
    alloc: Global,
    claimed: ClaimedSets,
}

impl Model for ReducedClaim {
    ghost use Rattle.winning_sets.specs.declared.claimed.ClaimedSets.{ClaimedSets};
    ghost use Rattle.claim_check.specs.Ready.{IsReady};

    ghost Value = { ClaimedSets };

    ghost view = { λ c. c.claimed };

    ghost invariant = { λ c. IsReady c.claimed };
}

impl ReducedClaim {
    /// Reduces the sets of a claim.
    pub(crate) fn new(alloc: Global, claim: Claim) -> Result<ReducedClaim, AllocError>
        requires file { HasFileOf (claim_of claim) }
        ensures same { IfOk result (λ reduced. IsSameClaim (claim_of claim) (claim_in reduced)) }
        ensures ready { IfOk result IsReady }
    {
        let all = masks(alloc, &claim.position)?;
        let losers = losers_plies(claim.winner, claim.position.turn(), claim.moves);
        let plies = reduced_plies(alloc, claim.sets, all.as_slice(), losers)?;
        Ok(ReducedClaim {
            alloc,
            claimed: ClaimedSets {
                position: claim.position,
                winner: claim.winner,
                moves: claim.moves,
                masks: all,
                plies,
            },
        })
    }

    /// Returns the plan context of its position.
    pub(crate) fn bench(&self) -> PlanContext<'_>
        ensures position { result.position.now ≡ self.now.position }
        ensures ready { IsReady self.now }
    {
        PlanContext {
            alloc: self.alloc,
            position: &self.claimed.position,
            masks: self.claimed.masks.as_slice(),
        }
    }

    /// Returns the winner.
    pub(crate) fn winner(&self) -> Side
        ensures { result ≡ self.now.winner }
    {
        self.claimed.winner
    }

    /// Returns the number of moves of the winner.
    pub(crate) fn moves(&self) -> u8
        ensures moves { result ≡ self.now.moves }
        ensures few { result ≤ MOST_MOVES }
    {
        self.claimed.moves
    }

    /// Returns the claimed set of a ply and a mask.
    pub(crate) fn set(&self, ply: u8, mask: u8) -> Option<&Auto>
        ensures { option_copied result ≡ claimed_at (claim_in self.now) ply mask }
    {
        set_at(
            self.claimed.masks.as_slice(),
            self.claimed.plies.as_slice(),
            ply,
            mask,
        )
    }

    /// Returns the solved position of its sets, if the claim is won. Allocates nothing.
    pub(crate) fn into_solved(self) -> Solved
        requires { IsWonClaim (solution_of self) }
        ensures { result ≡ solution_of self }
    {
        Solved::from_sets(self.alloc, self.claimed)
    }
}

/// Reduces a set, and drops the table that was read.
fn reduced_set(alloc: Global, claimed: ClaimedSet) -> Result<Auto, AllocError>
    ensures { IfOk result (λ a. IsReducedOf (automaton_in claimed.set) a) }
{
    let set = claimed.set.into_auto(alloc)?;
    let reduced = reduce(alloc, &set)?;
    Ok(reduced)
}

/// The sets of a ply, reduced.
fn reduced_ply(alloc: Global, sets: Vec<ClaimedSet>) -> Result<PlySets, AllocError>
    ensures { IfOk result (λ reduced. AllZip IsReducedOf (map (λ s. automaton_in s.set) sets.items) reduced) }
{
    let mut reduced = Vec::new(alloc);
    for set in sets {
        reduced.push(reduced_set(alloc, set)?)?;
    }
    Ok(PlySets::new(reduced))
}

/// Adds a ply of the winner, which has no sets.
fn push_none(alloc: Global, plies: &mut Vec<PlySets>) -> Result<(), AllocError>
    ensures { OnOk result (plies.new.items ≡ plies.old.items ++ [] ∷ []) }
{
    plies.push(PlySets::new(Vec::new(alloc)))?;
    Ok(())
}

/// The sets of these plies, each with one for each of the masks, in their order.
fn reduced_plies(
    alloc: Global,
    sets: Vec<ClaimedSet>,
    masks: &[u8],
    losers: Plies,
) -> Result<Vec<PlySets>, AllocError>
    requires few { AreFew losers }
    requires places { map (λ s. (s.ply, s.mask)) sets.items ≡ places_with (plies_in losers) masks.now }
    ensures { IfOk result (λ plies. AreReduced (map set_of sets.items) (sets_from 0 masks.now plies.items)) }
{
    let mut plies = Vec::new(alloc);
    for _before in 0..losers.first {
        push_none(alloc, &mut plies)?;
    }
    let mut left = sets;
    for _done in 0..losers.count {
        let later = left.split_off(masks.len())?;
        plies.push(reduced_ply(alloc, left)?)?;
        push_none(alloc, &mut plies)?;
        left = later;
    }
    Ok(plies)
}
