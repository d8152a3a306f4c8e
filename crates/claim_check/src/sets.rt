//! The rules of the claimed sets: each is a set of tuples of integers, its men stand on distinct squares, and the
//! winner is not in check.
ghost use Rattle.std.specs.Prelude.{◌≡◌, ℕ, All, IsSome, None, Ok, Some};
ghost use Rattle.auto_core.specs.Integers.{DecidesIntegers};
ghost use Rattle.rule_formula.specs.Fits.{IsGameMask};
ghost use Rattle.mate_plan.specs.Bench.{IsLater};
ghost use Rattle.mate_plan.specs.Claim.{claimed_at, losers_plies};
ghost use Rattle.mate_plan.specs.Levels.{AreNamesIn};
ghost use Rattle.claim_plan.specs.CheckPlan as plan;
ghost use Rattle.claim_check.specs.Finds.{Finds, FindsBy};
ghost use Rattle.claim_check.specs.Programs.{check_guard_in, check_same_in};
ghost use Rattle.claim_check.specs.Ready.{AreThere, claim_in};

use crate::claimed::lone_level;
use crate::in_turn::{Checks, first_failing};
use crate::reduced::ReducedClaim;
use crate::rules::{FirstFailure, failed_rule, failed_rule_by, rule_at};
use auto_core::Auto;
use auto_reduce::sign_stable;
use claim_plan::Rule;
use mate_plan::{PlanState, Stage, StageLevel, are_on_distinct_squares, are_safe};
use std::alloc::Global;

/// Whether a claimed set is one of tuples of integers.
fn check_sign(alloc: Global, ply: u8, mask: u8, set: &Auto) -> FirstFailure
    ensures finds { (budget : ℕ) → Finds (plan.check_sign ply mask (Some set.now)) budget result }
    ensures signed { result ≡ Ok None → DecidesIntegers set.now }
{
    let stable = sign_stable(alloc, set)?;
    Ok(failed_rule(rule_at(ply, mask, Rule::Sign), stable))
}

/// Checks whether live men stand on distinct squares in the stage's set.
fn check_same(claim: &ReducedClaim, work: &mut PlanState, at: &StageLevel) -> FirstFailure
    requires mask { IsGameMask claim.now.position at.now.stage.mask }
    requires level { AreNamesIn claim.now.position work.old.sets at.now.level.now }
    ensures finds { FindsBy work.old (check_same_in claim.now work.old.sets at.now) result }
    ensures sets { work.new.sets ≡ work.old.sets }
    ensures budget { work.new.memo.budget ≡ work.old.memo.budget }
{
    let bench = claim.bench();
    let rule = rule_at(at.stage.ply, at.stage.mask, Rule::Same);
    failed_rule_by(rule, are_on_distinct_squares(&bench, work, at))
}

/// Whether no man of the side of the stage bears on the other king in its set.
fn check_guard(claim: &ReducedClaim, work: &mut PlanState, at: &StageLevel) -> FirstFailure
    requires mask { IsGameMask claim.now.position at.now.stage.mask }
    requires level { AreNamesIn claim.now.position work.old.sets at.now.level.now }
    ensures finds { FindsBy work.old (check_guard_in claim.now work.old.sets at.now) result }
    ensures sets { work.new.sets ≡ work.old.sets }
    ensures budget { work.new.memo.budget ≡ work.old.memo.budget }
{
    let bench = claim.bench();
    let rule = rule_at(at.stage.ply, at.stage.mask, Rule::Guard);
    failed_rule_by(rule, are_safe(&bench, work, at))
}

/// The rules of the set that is claimed at a ply for a mask. It is named only after its rule of signs is kept, since a
/// named set is one of tuples of integers.
fn check_set(claim: &ReducedClaim, work: &mut PlanState, ply: u8, mask: u8) -> FirstFailure
    requires { IsSome (claimed_at (claim_in claim.now) ply mask) }
    ensures finds { FindsBy work.old (plan.check_set (claim_in claim.now) ply mask) result }
    ensures later { IsLater work.old work.new }
{
    let bench = claim.bench();
    let Some(set) = claim.set(ply, mask) else {
        unreachable!();
    };
    let sign = check_sign(bench.alloc, ply, mask, set)?;
    if sign.is_some() {
        return Ok(sign);
    }
    let count = work.sets.count();
    let level = lone_level(claim, work, mask, set)?;
    let stage = Stage {
        side: claim.winner().other(),
        ply,
        mask,
    };
    let at = StageLevel {
        stage,
        level: &level,
    };
    let same = check_same(claim, work, &at)?;
    if same.is_some() {
        return Ok(same);
    }
    let guard = check_guard(claim, work, &at)?;
    work.sets.truncate(count);
    Ok(guard)
}

/// The rules of the sets of a ply, mask by mask.
#[derive(Clone, Copy)]
struct SetsByMask<'a> {
    claim: &'a ReducedClaim,
    ply: u8,
}

impl Checks for SetsByMask<'_> {
    ghost program = { λ s _ mask. plan.check_set (claim_in s.claim.now) s.ply mask };

    ghost fits = { λ _ _. Unit {0} };

    ghost takes = { λ s mask. IsSome (claimed_at (claim_in s.claim.now) s.ply mask) };

    fn check(&self, work: &mut PlanState, mask: u8) -> FirstFailure {
        check_set(self.claim, work, self.ply, mask)
    }
}

/// The rules of the sets of a ply.
fn check_sets_at(claim: &ReducedClaim, work: &mut PlanState, ply: u8) -> FirstFailure
    requires { AreThere (claim_in claim.now) ply }
    ensures finds { FindsBy work.old (plan.check_sets (claim_in claim.now) ply) result }
    ensures later { IsLater work.old work.new }
{
    let bench = claim.bench();
    first_failing(&SetsByMask { claim, ply }, work, bench.masks)
}

/// The rules of the sets, ply by ply.
#[derive(Clone, Copy)]
struct SetsByPly<'a> {
    claim: &'a ReducedClaim,
}

impl Checks for SetsByPly<'_> {
    ghost program = { λ s _ ply. plan.check_sets (claim_in s.claim.now) ply };

    ghost fits = { λ _ _. Unit {0} };

    ghost takes = { λ s ply. AreThere (claim_in s.claim.now) ply };

    fn check(&self, work: &mut PlanState, ply: u8) -> FirstFailure {
        check_sets_at(self.claim, work, ply)
    }
}

/// Checks the rules of the sets of all plies of the loser.
pub(crate) fn check_sets(claim: &ReducedClaim, work: &mut PlanState, plies: &[u8]) -> FirstFailure
    requires { plies.now ≡ losers_plies claim.now.winner claim.now.position.turn claim.now.moves }
    ensures finds { FindsBy work.old (plan.for_each plies.now (plan.check_sets (claim_in claim.now))) result }
    ensures budget { work.new.memo.budget ≡ work.old.memo.budget }
{
    let _bench = claim.bench(); // for its invariant
    first_failing(&SetsByPly { claim }, work, plies)
}
