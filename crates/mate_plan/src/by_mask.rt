//! Levels that are computed mask by mask.
ghost use Rattle.std.specs.Prelude.{ℕ, ◌≡◌, List, IfOk};
ghost use Rattle.auto_core.specs.Automaton.{Automaton};
ghost use Rattle.game_rules.specs.Game.{Position};
ghost use Rattle.lin_formula.specs.SetOf.{SetOf};
ghost use Rattle.rule_formula.specs.Fits.{IsGameMask};
ghost use Rattle.mate_plan.specs.Levels.{AreNamesIn};
ghost use Rattle.mate_plan.specs.Plan as plan;
ghost use Rattle.mate_plan.specs.Bench.{IsLater, IsNameFor};
ghost use Rattle.mate_plan.specs.Named.{AnswersLevel, AnswersName, StaysSame};
ghost use Rattle.mate_plan.specs.Named as named;

use crate::bench::{PlanContext, PlanState};
use crate::level::LevelNames;
use crate::names::PartName;
use lin_formula::SetId;
use set_plan::{PlanError, ProgramFold, each};

/// Computes the sets of a level, one mask after the other, from levels that are given by name.
pub trait LevelBuilder {
    /// The program of a mask, over the sets of a table.
    ghost program: { Self → Position → List Automaton → ℕ → plan.Program SetOf };

    /// The levels' names are those of sets of the table.
    ghost fits: { Self → Position → List Automaton → Type 0 };

    /// The name of the set of a mask.
    fn name(
        &self,
        bench: &PlanContext,
        work: &mut PlanState,
        mask: u8,
    ) -> Result<Option<SetId>, PlanError<PartName>>
        requires mask { IsGameMask bench.now.position.now mask }
        requires fits { fits self.now bench.now.position.now work.old.sets }
        ensures answers { AnswersName bench.now work.old work.new (named.at_mask (program self.now) mask) result }
        ensures name { IfOk result (IsNameFor bench.now mask work.new.sets) }
        ensures later { IsLater work.old work.new }
        ensures fits { fits self.now bench.now.position.now work.new.sets }
        ensures same { StaysSame (program self.now bench.now.position.now) work.old.sets work.new.sets };
}

/// A level, mask by mask.
#[derive(Drop)]
struct ByMask<'a, M> {
    bench: &'a PlanContext<'a>,
    making: &'a M,
}

impl<M: LevelBuilder> ProgramFold for ByMask<'_, M> {
    ghost use Rattle.std.specs.Prelude.{◌≡◌};
    ghost use Rattle.set_plan.specs.Sets.{Grows};
    ghost use Rattle.mate_plan.specs.Levels.{AreNamesSoFar, level_in};
    ghost use Rattle.mate_plan.specs.Plan as plan;

    type Work = PlanState;

    type Item = u8;

    type Value = LevelNames;

    type Part = PartName;

    ghost Seen = { plan.Level };

    ghost view = { λ it work names. level_in it.bench.now.position.now work.sets names };

    ghost program = { λ it work mask.
        plan.with_mask (M.program it.making.now it.bench.now.position.now work.sets) mask };

    ghost budget = { λ _ work. work.memo.budget };

    ghost fits = { λ it work names masks. AreNamesSoFar it.bench.now.position.now work.sets names masks
        × M.fits it.making.now it.bench.now.position.now work.sets };

    ghost keeps = { λ _ u v. Grows u.sets v.sets };

    ghost keeps_self = { λ _ _ _ _ e. e };

    ghost keeps_on = { λ _ _ _ _ first second k a e. second k a (first k a e) };

    fn step(
        &self,
        work: &mut PlanState,
        mask: &u8,
        so_far: LevelNames,
    ) -> Result<LevelNames, PlanError<PartName>> {
        let name = self.making.name(self.bench, work, *mask)?;
        let mut names = so_far;
        names.push(name)?;
        Ok(names)
    }
}

/// Computes a level mask by mask.
pub fn level_by<M: LevelBuilder>(
    bench: &PlanContext,
    work: &mut PlanState,
    making: &M,
) -> Result<LevelNames, PlanError<PartName>>
    requires fits { M.fits making.now bench.now.position.now work.old.sets }
    ensures answers { AnswersLevel bench.now work.old work.new (named.by_mask (M.program making.now)) result }
    ensures names { IfOk result (AreNamesIn bench.now.position.now work.new.sets) }
    ensures later { IsLater work.old work.new }
{
    let steps = ByMask { bench, making };
    each(&steps, work, bench.masks, LevelNames::new(bench.alloc))
}
