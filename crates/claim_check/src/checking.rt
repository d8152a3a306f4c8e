//! The check of a claim.
ghost use Rattle.std.specs.Prelude.{IfErr, IfOk, None, OnOk};
ghost use Rattle.set_plan.specs.Outcome.{Ends};
ghost use Rattle.claim_plan.specs.CheckPlan.{check_plan as plan_of};
ghost use Rattle.strategy_file.specs.Claims.{claim_of};
ghost use Rattle.strategy_file.specs.Fitting.{HasFileOf};
ghost use Rattle.claim_check.specs.Check.{IsCheckError, IsChecked};
ghost use Rattle.claim_check.specs.Finds.{FindsBy};
ghost use Rattle.claim_check.specs.Ready.{claim_in};

use crate::error::{CheckError, check_error};
use crate::first::check_first;
use crate::plies::losers_plies;
use crate::reduced::ReducedClaim;
use crate::replies::check_replies;
use crate::rules::FirstFailure;
use crate::sets::check_sets;
use limits::Budget;
use mate_plan::PlanState;
use std::alloc::Global;
use strategy_file::Claim;
use winning_sets::Solved;

/// Goes through the plan of a claim: the claimed sets by themselves, the start, and the replies.
fn check_plan(claim: &ReducedClaim, work: &mut PlanState) -> FirstFailure
    ensures { FindsBy work.old (plan_of (claim_in claim.now)) result }
{
    let bench = claim.bench();
    let losers = losers_plies(claim.winner(), bench.position.turn(), claim.moves());
    let list = losers.list(bench.alloc)?;
    let plies = list.as_slice();
    let sets = check_sets(claim, work, plies)?;
    if sets.is_some() {
        return Ok(sets);
    }
    let first = check_first(claim, work)?;
    if first.is_some() {
        return Ok(first);
    }
    check_replies(claim, work, plies)
}

/// Checks a claim, no matter who made it. Returns the solved position of its sets.
///
/// Errors: the first rule that fails, the first step that exceeds the budget, or that an allocation failed.
pub fn check(alloc: Global, claim: Claim, budget: Budget) -> Result<Solved, CheckError>
    requires claim { HasFileOf (claim_of claim) }
    ensures claimed { IfOk result (λ s. IsChecked (claim_of claim) s) }
    ensures won { OnOk result (Ends (plan_of (claim_of claim)) budget None) }
    ensures error { IfErr result (IsCheckError (claim_of claim) budget) }
{
    let moves = claim.moves;
    let reduced = ReducedClaim::new(alloc, claim)?;
    match check_plan(&reduced, &mut PlanState::new(alloc, budget)) {
        Ok(None) => Ok(reduced.into_solved()),
        Ok(Some(rule)) => Err(CheckError::NotKept(rule)),
        Err(error) => Err(check_error(moves, error)),
    }
}
