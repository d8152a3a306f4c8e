//! Results of rules.
ghost use Rattle.std.specs.Prelude.{◌≡◌};
ghost use Rattle.claim_plan.specs.CheckPlan as plan;
ghost use Rattle.claim_check.specs.Finds.{IsJudgedBy};

use claim_plan::{Rule, RuleAt};
use mate_plan::PartName;
use set_plan::PlanError;

/// The first rule that fails, or none; or why the plan does not end.
pub(crate) type FirstFailure = Result<Option<RuleAt>, PlanError<PartName>>;

/// Returns the rule at a ply and a mask.
pub(crate) fn rule_at(ply: u8, mask: u8, rule: Rule) -> RuleAt
    ensures { result ≡ plan.rule_at ply mask rule }
{
    RuleAt { ply, mask, rule }
}

/// Returns the rule if it is not kept.
pub(crate) fn failed_rule(rule: RuleAt, kept: bool) -> Option<RuleAt>
    ensures { result ≡ plan.failed_rule rule kept }
{
    if kept { None } else { Some(rule) }
}

/// Returns the rule if the program's value is false.
pub(crate) fn failed_rule_by(
    rule: RuleAt,
    answer: Result<bool, PlanError<PartName>>,
) -> FirstFailure
    ensures { IsJudgedBy rule answer result }
{
    match answer {
        Ok(kept) => Ok(failed_rule(rule, kept)),
        Err(error) => Err(error),
    }
}
