//! The sets of the positions that are reached and not won.
ghost use Rattle.std.specs.Prelude.{◌≡◌, ◌<◌, Some, IfOk};
ghost use Rattle.rule_formula.specs.Fits.{IsGameMask};
ghost use Rattle.rule_formula.specs.Mean.{mask_tracks};
ghost use Rattle.set_plan.specs.Sets.{IsLeftOn};
ghost use Rattle.mate_plan.specs.Plan.{turn_at};
ghost use Rattle.winning_sets.specs.Solve.{end_of, kept_at, reach_at};
ghost use Rattle.winning_sets.specs.declared.origin.Origin.TheVariants as origin;
ghost use Rattle.loser_session.specs.Unwon.{AnswersRest, AreUnwonAt, AreUnwonPlies, AreUnwonSets, IsUnwonSet, RestsFit};

use crate::plies::is_winners;
use auto_core::Auto;
use limits::Budget;
use mate_plan::mask_tracks as variables;
use set_plan::{Left, PlanError, difference_set};
use std::alloc::{AllocError, Global};
use winning_sets::{Part, PartName, PlySets, Solved};

/// A copy of the set of the positions that are reached at a ply.
fn reach_copy(solved: &Solved, ply: u8, mask: u8) -> Result<Auto, AllocError>
    requires plan { solved.now.origin ≡ origin.Plan }
    requires before { ply < end_of solved.now }
    requires game { IsGameMask solved.now.position mask }
    ensures { IfOk result (λ a. reach_at solved.now ply mask ≡ Some a) }
{
    match solved.reach(ply, mask) {
        Some(set) => {
            let copy = set.copy()?;
            Ok(copy)
        }
        None => unreachable!(),
    }
}

/// A set over the men of the mask without a tuple: at the last ply nothing is kept.
fn empty_copy(solved: &Solved, mask: u8) -> Result<Auto, AllocError>
    requires plan { solved.now.origin ≡ origin.Plan }
    requires game { IsGameMask solved.now.position mask }
    ensures { IfOk result (λ a. kept_at solved.now (end_of solved.now) mask ≡ Some a) }
{
    match solved.set(solved.last_ply(), mask) {
        Some(set) => {
            let copy = set.copy()?;
            Ok(copy)
        }
        None => unreachable!(),
    }
}

/// What is left of the reached positions of a ply without the kept ones, by the steps of the plan.
fn remainder_at(
    alloc: Global,
    solved: &Solved,
    ply: u8,
    mask: u8,
    budget: Budget,
) -> Result<Left, PlanError<PartName>>
    requires plan { solved.now.origin ≡ origin.Plan }
    requires before { ply < end_of solved.now }
    ensures answers { AnswersRest solved.now ply mask budget result }
    ensures set { IfOk result (IsLeftOn (mask_tracks solved.now.position mask)) }
{
    let position = solved.position();
    let tracks = variables(alloc, &position, mask)?;
    let part = PartName {
        ply,
        mask,
        part: Part::Rest,
    };
    let one = solved.reach(ply, mask);
    let other = solved.set(ply, mask);
    difference_set(alloc, &tracks, part, one, other, budget)
}

/// What is reached and not won at a ply after a move of the loser: it is what is reached and not kept.
fn unwon_set(
    alloc: Global,
    solved: &Solved,
    ply: u8,
    mask: u8,
    budget: Budget,
) -> Result<Auto, AllocError>
    requires plan { solved.now.origin ≡ origin.Plan }
    requires fits { RestsFit solved.now budget }
    requires some { 0 < ply }
    requires before { ply < end_of solved.now }
    requires turn { turn_at solved.now.position.turn ply ≡ solved.now.winner }
    requires game { IsGameMask solved.now.position mask }
    ensures { IfOk result (IsUnwonSet solved.now ply mask) }
{
    let _ = solved.masks(); // for its invariant
    match remainder_at(alloc, solved, ply, mask, budget) {
        Ok(Left::Part(Some(set))) => Ok(set),
        Ok(Left::Part(None)) => {
            let empty = empty_copy(solved, mask)?;
            Ok(empty)
        }
        Ok(Left::Whole) => {
            let whole = reach_copy(solved, ply, mask)?;
            Ok(whole)
        }
        Err(PlanError::Memory) => Err(AllocError),
        Err(PlanError::Over(_)) => unreachable!(),
    }
}

/// The sets of a ply after a move of the loser, in the order of the masks.
fn unwon_sets(
    alloc: Global,
    solved: &Solved,
    ply: u8,
    budget: Budget,
) -> Result<PlySets, AllocError>
    requires plan { solved.now.origin ≡ origin.Plan }
    requires fits { RestsFit solved.now budget }
    requires some { 0 < ply }
    requires before { ply < end_of solved.now }
    requires turn { turn_at solved.now.position.turn ply ≡ solved.now.winner }
    ensures { IfOk result (AreUnwonSets solved.now ply) }
{
    let mut sets = Vec::new(alloc);
    for mask in solved.masks() {
        sets.push(unwon_set(alloc, solved, ply, *mask, budget)?)?;
    }
    Ok(PlySets::new(sets))
}

/// Computes the sets of a ply, if the loser has just moved. On the loser's turn it returns none: the solution has them.
fn unwon_at(alloc: Global, solved: &Solved, ply: u8, budget: Budget) -> Result<PlySets, AllocError>
    requires plan { solved.now.origin ≡ origin.Plan }
    requires fits { RestsFit solved.now budget }
    requires before { ply < end_of solved.now }
    ensures { IfOk result (AreUnwonAt solved.now ply) }
{
    if ply == 0 {
        return Ok(PlySets::new(Vec::new(alloc)));
    }
    if !is_winners(solved, ply) {
        return Ok(PlySets::new(Vec::new(alloc)));
    }
    let sets = unwon_sets(alloc, solved, ply, budget)?;
    Ok(sets)
}

/// Computes the sets of all plies before the last one. No move leads to the last ply while the winner has a move left.
pub(crate) fn unwon_plies(
    alloc: Global,
    solved: &Solved,
    budget: Budget,
) -> Result<Vec<PlySets>, AllocError>
    requires plan { solved.now.origin ≡ origin.Plan }
    requires fits { RestsFit solved.now budget }
    ensures { IfOk result (λ plies. AreUnwonPlies solved.now plies.items) }
{
    let mut plies = Vec::new(alloc);
    let last = solved.last_ply();
    for ply in 0..last {
        let sets = unwon_at(alloc, solved, ply, budget)?;
        plies.push(sets)?;
    }
    Ok(plies)
}
