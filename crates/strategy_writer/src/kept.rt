//! The claim of a solved position, and a claim from a file with its sets reduced.

ghost use Rattle.std.specs.Prelude.{◌≡◌, All, IfOk, IsSome, OnOk, map};
ghost use Rattle.winning_sets.specs.Solve.{IsSolution, kept_at};
ghost use Rattle.strategy_file.specs.Claims.{claim_of, set_of};
ghost use Rattle.strategy_file.specs.Fitting.{HasFileOf};
ghost use Rattle.strategy_writer.specs.KeptClaims.{as_claim, as_set};
ghost use Rattle.strategy_writer.specs.ReducedClaims.{IsReducedClaim, IsReducedSet};
ghost use Rattle.strategy_writer.specs.SolvedFile.{IsClaimOf, IsOfKeptSet};
ghost use Rattle.strategy_file.specs.StrategyFile.{places_of};

use crate::kept_claim::{KeptClaim, KeptSet};
use auto_core::Auto;
use auto_reduce::reduce;
use std::alloc::{AllocError, Global};
use strategy_file::{Claim, ClaimedSet, places};
use winning_sets::{Origin, Solved};

/// Returns the claim of the sets kept at the plies of the loser.
pub(crate) fn kept_claim(alloc: Global, solved: &Solved) -> Result<KeptClaim, AllocError>
    requires plan { solved.now.origin ≡ Origin.Plan }
    ensures claim { IfOk result (λ c. IsClaimOf solved.now (as_claim c)) }
    ensures valid { OnOk result (IsSolution solved.now) }
{
    let position = solved.position();
    let places = places(
        alloc,
        solved.winner(),
        position.turn(),
        solved.moves(),
        solved.masks(),
    )?;
    let sets = kept_sets(alloc, solved, places.as_slice())?;
    Ok(KeptClaim {
        position,
        winner: solved.winner(),
        moves: solved.moves(),
        sets,
    })
}

/// The sets that are kept at these plies and masks.
fn kept_sets(
    alloc: Global,
    solved: &Solved,
    places: &[(u8, u8)],
) -> Result<Vec<KeptSet>, AllocError>
    requires valid { IsSolution solved.now }
    requires all { places.now ≡ places_of solved.now.winner solved.now.position solved.now.moves }
    ensures places { IfOk result (λ sets. map (λ s. (s.ply, s.mask)) sets.items ≡ places.now) }
    ensures sets { IfOk result (λ sets. All (λ s. IsOfKeptSet solved.now (as_set s)) sets.items) }
{
    let mut sets = Vec::new(alloc);
    for (ply, mask) in places {
        let set = kept_set(alloc, solved, *ply, *mask)?;
        sets.push(set)?;
    }
    Ok(sets)
}

/// Returns the claim with its sets reduced.
pub(crate) fn reduced_claim(alloc: Global, claim: &Claim) -> Result<KeptClaim, AllocError>
    requires { HasFileOf (claim_of claim.now) }
    ensures { IfOk result (λ c. IsReducedClaim (claim_of claim.now) (as_claim c)) }
{
    let position = claim.position;
    let mut sets = Vec::new(alloc);
    for claimed in claim.sets.as_slice() {
        sets.push(reduced_set(alloc, claimed)?)?;
    }
    Ok(KeptClaim {
        position,
        winner: claim.winner,
        moves: claim.moves,
        sets,
    })
}

/// A claimed set, reduced.
fn reduced_set(alloc: Global, claimed: &ClaimedSet) -> Result<KeptSet, AllocError>
    ensures { IfOk result (λ s. IsReducedSet (set_of claimed.now) (as_set s)) }
{
    let set = claimed.set.to_auto(alloc)?;
    let set = reduce(alloc, &set)?;
    Ok(KeptSet {
        ply: claimed.ply,
        mask: claimed.mask,
        set,
    })
}

/// The set that is kept at a ply and a mask. It is reduced again, since how the states of a solved position's sets
/// are numbered is not said.
fn kept_set(alloc: Global, solved: &Solved, ply: u8, mask: u8) -> Result<KeptSet, AllocError>
    requires { IsSome (kept_at solved.now ply mask) }
    ensures ply { IfOk result (λ s. s.ply ≡ ply) }
    ensures mask { IfOk result (λ s. s.mask ≡ mask) }
    ensures set { IfOk result (λ s. IsOfKeptSet solved.now (as_set s)) }
{
    match solved.set(ply, mask) {
        Some(kept) => {
            let set = reduce(alloc, kept)?;
            Ok(KeptSet { ply, mask, set })
        }
        None => unreachable!(),
    }
}
