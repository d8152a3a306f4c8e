//! The rules of the replies: each reply has an answer into what is claimed two plies later, and the loser has a reply
//! if he is not in check.
ghost use Rattle.std.specs.Prelude.{◌≡◌, ◌≤◌, All, IfOk};
ghost use Rattle.rule_formula.specs.Fits.{IsGameMask};
ghost use Rattle.mate_plan.specs.Bench.{IsLater};
ghost use Rattle.claim_plan.specs.CheckPlan as plan;
ghost use Rattle.claim_check.specs.Finds.{AnswersBy, FindsBy};
ghost use Rattle.claim_check.specs.Programs.{check_all_left_in, check_all_stale_in, check_left_in, check_stale_in, reach_in, reached_in};
ghost use Rattle.claim_check.specs.Ready.{AreSigned, claim_in};
ghost use Rattle.claim_check.specs.Replies.{AreReplies};

use crate::claimed::claimed_level;
use crate::in_turn::{Checks, first_failing};
use crate::reduced::ReducedClaim;
use crate::rules::{FirstFailure, failed_rule_by, rule_at};
use claim_plan::Rule;
use mate_plan::{
    LevelNames, MovesInto, PartName, PlanState, ReachedLevel, Stage, are_answered, have_replies,
    reach_level,
};
use set_plan::PlanError;

/// The replies at a ply of the loser.
#[derive(Drop)]
struct Replies {
    ply: u8,
    /// What is claimed at the ply from which the replies start.
    claimed: LevelNames,
    /// What they reach.
    reached: LevelNames,
    /// What is claimed two plies later, where the winner's moves must lead.
    later: LevelNames,
}

/// The replies at a ply, which has a next one.
fn replies_at(
    claim: &ReducedClaim,
    work: &mut PlanState,
    ply: u8,
) -> Result<Replies, PlanError<PartName>>
    requires signed { AreSigned (claim_in claim.now) }
    requires ply { ply ≤ 41 }
    ensures reached { AnswersBy work.old (reach_in claim.now ply) (reached_in claim.now work.new.sets) result }
    ensures replies { IfOk result (λ r. AreReplies claim.now ply work.new.sets r) }
    ensures later { IsLater work.old work.new }
{
    let bench = claim.bench();
    let here = claimed_level(claim, work, ply)?;
    let from = ReachedLevel {
        side: claim.winner().other(),
        ply: ply + 1,
        level: &here,
    };
    let reached = reach_level(&bench, work, &from)?;
    let later = claimed_level(claim, work, ply + 2)?;
    Ok(Replies {
        ply,
        claimed: here,
        reached,
        later,
    })
}

/// Checks whether each reached position with the mask has a move into what is claimed.
fn check_left(
    claim: &ReducedClaim,
    work: &mut PlanState,
    replies: &Replies,
    mask: u8,
) -> FirstFailure
    requires { AreReplies claim.now replies.now.ply work.old.sets replies.now }
    ensures finds { FindsBy work.old (check_left_in claim.now work.old.sets replies.now mask) result }
    ensures later { IsLater work.old work.new }
{
    let bench = claim.bench();
    let ply = replies.ply + 1;
    let moves = MovesInto {
        stage: Stage {
            side: claim.winner(),
            ply,
            mask,
        },
        from: &replies.reached,
        into: &replies.later,
    };
    failed_rule_by(
        rule_at(ply, mask, Rule::Left),
        are_answered(&bench, work, &moves),
    )
}

/// Whether the loser is in check or has a reply in each claimed position with the mask.
fn check_stale(
    claim: &ReducedClaim,
    work: &mut PlanState,
    replies: &Replies,
    mask: u8,
) -> FirstFailure
    requires mask { IsGameMask claim.now.position mask }
    requires replies { AreReplies claim.now replies.now.ply work.old.sets replies.now }
    ensures finds { FindsBy work.old (check_stale_in claim.now work.old.sets replies.now mask) result }
    ensures later { IsLater work.old work.new }
{
    let bench = claim.bench();
    let moves = MovesInto {
        stage: Stage {
            side: claim.winner().other(),
            ply: replies.ply,
            mask,
        },
        from: &replies.claimed,
        into: &replies.reached,
    };
    failed_rule_by(
        rule_at(replies.ply, mask, Rule::Stale),
        have_replies(&bench, work, &moves),
    )
}

/// Checks the reached positions, mask by mask.
#[derive(Clone, Copy)]
struct AnswersByMask<'a> {
    claim: &'a ReducedClaim,
    replies: &'a Replies,
}

impl Checks for AnswersByMask<'_> {
    ghost program = { λ s sets mask. check_left_in s.claim.now sets s.replies.now mask };

    ghost fits = { λ s sets. AreReplies s.claim.now s.replies.now.ply sets s.replies.now };

    ghost takes = { λ s mask. IsGameMask s.claim.now.position mask };

    fn check(&self, work: &mut PlanState, mask: u8) -> FirstFailure {
        check_left(self.claim, work, self.replies, mask)
    }
}

/// Whether the loser is in check or has a reply, mask by mask.
#[derive(Clone, Copy)]
struct StalematesByMask<'a> {
    claim: &'a ReducedClaim,
    replies: &'a Replies,
}

impl Checks for StalematesByMask<'_> {
    ghost program = { λ s sets mask. check_stale_in s.claim.now sets s.replies.now mask };

    ghost fits = { λ s sets. AreReplies s.claim.now s.replies.now.ply sets s.replies.now };

    ghost takes = { λ s mask. IsGameMask s.claim.now.position mask };

    fn check(&self, work: &mut PlanState, mask: u8) -> FirstFailure {
        check_stale(self.claim, work, self.replies, mask)
    }
}

/// Checks whether each reached position has a move into what is claimed, mask by mask.
fn check_all_left(claim: &ReducedClaim, work: &mut PlanState, replies: &Replies) -> FirstFailure
    requires { AreReplies claim.now replies.now.ply work.old.sets replies.now }
    ensures finds { FindsBy work.old (check_all_left_in claim.now work.old.sets replies.now) result }
    ensures later { IsLater work.old work.new }
{
    let bench = claim.bench();
    first_failing(&AnswersByMask { claim, replies }, work, bench.masks)
}

/// Whether the loser is in check or has a reply in each claimed position, mask by mask.
fn check_all_stale(claim: &ReducedClaim, work: &mut PlanState, replies: &Replies) -> FirstFailure
    requires { AreReplies claim.now replies.now.ply work.old.sets replies.now }
    ensures finds { FindsBy work.old (check_all_stale_in claim.now work.old.sets replies.now) result }
    ensures later { IsLater work.old work.new }
{
    let bench = claim.bench();
    first_failing(&StalematesByMask { claim, replies }, work, bench.masks)
}

/// Checks the rules of the replies at a ply, and drops its sets afterwards.
fn check_ply(claim: &ReducedClaim, work: &mut PlanState, ply: u8) -> FirstFailure
    requires signed { AreSigned (claim_in claim.now) }
    requires ply { ply ≤ 41 }
    ensures finds { FindsBy work.old (plan.check_ply (claim_in claim.now) ply) result }
    ensures later { IsLater work.old work.new }
{
    let count = work.sets.count();
    let replies = replies_at(claim, work, ply)?;
    let left = check_all_left(claim, work, &replies)?;
    if left.is_some() {
        return Ok(left);
    }
    let stale = check_all_stale(claim, work, &replies)?;
    work.sets.truncate(count);
    Ok(stale)
}

/// The rules of the replies, ply by ply.
#[derive(Clone, Copy)]
struct RepliesByPly<'a> {
    claim: &'a ReducedClaim,
}

impl Checks for RepliesByPly<'_> {
    ghost program = { λ s _ ply. plan.check_ply (claim_in s.claim.now) ply };

    ghost fits = { λ s _. AreSigned (claim_in s.claim.now) };

    ghost takes = { λ _ ply. ply ≤ 41 };

    fn check(&self, work: &mut PlanState, ply: u8) -> FirstFailure {
        check_ply(self.claim, work, ply)
    }
}

/// Checks the rules of the replies at all plies of the loser.
pub(crate) fn check_replies(
    claim: &ReducedClaim,
    work: &mut PlanState,
    plies: &[u8],
) -> FirstFailure
    requires signed { AreSigned (claim_in claim.now) }
    requires low { All (λ ply. ply ≤ 41) plies.now }
    ensures finds { FindsBy work.old (plan.for_each plies.now (plan.check_ply (claim_in claim.now))) result }
    ensures budget { work.new.memo.budget ≡ work.old.memo.budget }
{
    first_failing(&RepliesByPly { claim }, work, plies)
}
