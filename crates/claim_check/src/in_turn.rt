//! Checks items in order, up to the first rule that fails.
ghost use Rattle.std.specs.Prelude.{◌≡◌, ℕ, All, List};
ghost use Rattle.auto_core.specs.Automaton.{Automaton};
ghost use Rattle.set_plan.specs.Sets.{Grows};
ghost use Rattle.mate_plan.specs.Bench.{IsLater};
ghost use Rattle.mate_plan.specs.Plan.{Program};
ghost use Rattle.claim_plan.specs.CheckPlan as plan;
ghost use Rattle.claim_check.specs.Finds.{FindsBy};

use crate::rules::FirstFailure;
use claim_plan::RuleAt;
use mate_plan::{PartName, PlanState};
use set_plan::{ProgramFold, each};

/// Checks one item, such as a ply or a mask.
pub(crate) trait Checks {
    /// The program of an item, over the sets of a table.
    ghost program: { Self → List Automaton → ℕ → Program plan.Finding };

    /// What is checked can be, and its names are those of sets of the table.
    ghost fits: { Self → List Automaton → Type 0 };

    /// An item that can be checked.
    ghost takes: { Self → ℕ → Type 0 };

    /// The first rule that fails at the item, or none.
    fn check(&self, work: &mut PlanState, item: u8) -> FirstFailure
        requires fits { fits self.now work.old.sets }
        requires item { takes self.now item }
        ensures finds { FindsBy work.old (program self.now work.old.sets item) result }
        ensures later { IsLater work.old work.new }
        ensures fits { fits self.now work.new.sets }
        ensures same { program self.now work.new.sets ≡ program self.now work.old.sets };
}

/// Items checked in turn.
#[derive(Drop)]
struct InTurn<'a, C> {
    checks: &'a C,
}

impl<C: Checks> ProgramFold for InTurn<'_, C> {
    type Work = PlanState;

    type Item = u8;

    type Value = Option<RuleAt>;

    type Part = PartName;

    ghost Seen = { plan.Finding };

    ghost view = { λ _ _ found. found };

    ghost program = { λ s work item. plan.go_on (C.program s.checks.now work.sets item) };

    ghost budget = { λ _ work. work.memo.budget };

    ghost fits = { λ s work _ items. C.fits s.checks.now work.sets × All (C.takes s.checks.now) items };

    ghost keeps = { λ _ old new. Grows old.sets new.sets };

    ghost keeps_self = { λ _ _ _ _ e. e };

    ghost keeps_on = { λ _ _ _ _ first second k a e. second k a (first k a e) };

    fn step(&self, work: &mut PlanState, item: &u8, found: Option<RuleAt>) -> FirstFailure {
        if found.is_some() {
            return Ok(found);
        }
        self.checks.check(work, *item)
    }
}

/// Returns the first rule that fails, of the items in order, or none.
pub(crate) fn first_failing<C: Checks>(
    checks: &C,
    work: &mut PlanState,
    items: &[u8],
) -> FirstFailure
    requires fits { C.fits checks.now work.old.sets }
    requires items { All (C.takes checks.now) items.now }
    ensures finds { FindsBy work.old (plan.for_each items.now (C.program checks.now work.old.sets)) result }
    ensures later { IsLater work.old work.new }
{
    each(&InTurn { checks }, work, items, None)
}
