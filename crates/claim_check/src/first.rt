//! The rule of the start: a move of the winner leads from the position into a claimed set, or the position is claimed
//! itself.
ghost use Rattle.std.specs.Prelude.{◌≡◌, ◌↔◌, ℕ, IsTrue};
ghost use Rattle.mask_sets.specs.Stock.{mask_of};
ghost use Rattle.set_plan.specs.Outcome.{Ends};
ghost use Rattle.claim_plan.specs.CheckPlan as plan;
ghost use Rattle.claim_check.specs.Finds.{FindsBy};
ghost use Rattle.claim_check.specs.Programs.{check_start_in};
ghost use Rattle.claim_check.specs.Ready.{AreSigned, IsStartClaimed, claim_in};

use crate::claimed::claimed_level;
use crate::reduced::ReducedClaim;
use crate::rules::{FirstFailure, failed_rule, failed_rule_by, rule_at};
use claim_plan::{Rule, RuleAt};
use mask_sets::coordinates;
use mate_plan::{PlanState, has_first_move, plies_before_turn};

/// The rule of the start.
fn first_rule(claim: &ReducedClaim) -> RuleAt
    ensures { result ≡ plan.rule_at 0 (mask_of claim.now.position) Rule.First }
{
    let bench = claim.bench();
    rule_at(0, bench.position.mask(), Rule::First)
}

/// Whether the coordinates of the position are claimed before any move.
fn is_claimed(claim: &ReducedClaim) -> bool
    requires { AreSigned (claim_in claim.now) }
    ensures { IsTrue result ↔ IsStartClaimed (claim_in claim.now) }
{
    let bench = claim.bench();
    match claim.set(0, bench.position.mask()) {
        Some(set) => set.member(coordinates(bench.position).as_slice()),
        None => false,
    }
}

/// Checks the rule of the start if it is the winner's turn. With 0 moves the rule fails.
fn check_moving(claim: &ReducedClaim, work: &mut PlanState) -> FirstFailure
    requires signed { AreSigned (claim_in claim.now) }
    requires turn { claim.now.position.turn ≡ claim.now.winner }
    ensures finds { FindsBy work.old (plan.check_moving (claim_in claim.now) claim.now.moves) result }
    ensures budget { work.new.memo.budget ≡ work.old.memo.budget }
{
    let bench = claim.bench();
    let rule = first_rule(claim);
    if claim.moves() == 0 {
        return Ok(Some(rule));
    }
    let level = claimed_level(claim, work, 1)?;
    failed_rule_by(rule, has_first_move(&bench, work, &level))
}

/// Checks the rule of the start if it is the loser's turn.
fn check_waiting(claim: &ReducedClaim) -> Option<RuleAt>
    requires { AreSigned (claim_in claim.now) }
    ensures { (budget : ℕ) → Ends (plan.check_waiting (claim_in claim.now)) budget result }
{
    failed_rule(first_rule(claim), is_claimed(claim))
}

/// Checks the rule of the start.
pub(crate) fn check_first(claim: &ReducedClaim, work: &mut PlanState) -> FirstFailure
    requires { AreSigned (claim_in claim.now) }
    ensures finds { FindsBy work.old (check_start_in claim.now) result }
    ensures budget { work.new.memo.budget ≡ work.old.memo.budget }
{
    let bench = claim.bench();
    if plies_before_turn(claim.winner(), bench.position.turn()) == 0 {
        check_moving(claim, work)
    } else {
        Ok(check_waiting(claim))
    }
}
