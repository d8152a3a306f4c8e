//! The first and the last level of a plan.
ghost use Rattle.std.specs.Prelude.{◌≡◌, List, IfOk};
ghost use Rattle.auto_core.specs.Automaton.{Automaton};
ghost use Rattle.rule_formula.specs.Fits.{IsGameMask};
ghost use Rattle.mask_sets.specs.Stock.{mask_of};
ghost use Rattle.set_plan.specs.Making.{AnswersMade};
ghost use Rattle.set_plan.specs.Sets.{set_at};
ghost use Rattle.mate_plan.specs.Levels.{AreNamesIn, one_name};
ghost use Rattle.mate_plan.specs.Plan as plan;
ghost use Rattle.mate_plan.specs.Bench.{AreNamesIf, IsLater, IsSetFor, StandFor, rules_on};
ghost use Rattle.mate_plan.specs.Named.{AnswersLevel};
ghost use Rattle.mate_plan.specs.Named as named;

use crate::bench::{PlanContext, PlanState};
use crate::level::LevelNames;
use crate::names::{Part, PartName};
use formula_auto::Memo;
use lin_formula::SetId;
use rule_formula::point_formula;
use set_plan::{Made, PlanError, SetStore, make};
use std::alloc::AllocError;

/// The level with the set of this name for a mask, and without a set for the others.
fn level_at(bench: &PlanContext, mask: u8, name: Option<SetId>) -> Result<LevelNames, AllocError>
    ensures { IfOk result (λ names. names ≡ one_name bench.now.position.now mask name) }
{
    let mut names = LevelNames::new(bench.alloc);
    for other in bench.masks {
        names.push(if *other == mask { name } else { None })?;
    }
    Ok(names)
}

/// Returns the level with this name for one mask, and no set for the other masks.
pub fn one_level(
    bench: &PlanContext,
    mask: u8,
    name: Option<SetId>,
) -> Result<LevelNames, AllocError>
    requires mask { IsGameMask bench.now.position.now mask }
    ensures level { IfOk result (StandFor bench.now (λ sets. plan.level_with plan.no_sets mask (set_at sets name))) }
    ensures names { IfOk result (AreNamesIf bench.now mask name) }
{
    level_at(bench, mask, name)
}

/// Returns the level without sets: no mask has a name.
pub fn no_level(bench: &PlanContext) -> Result<LevelNames, AllocError>
    ensures level { IfOk result (StandFor bench.now (λ sets. plan.no_sets)) }
    ensures names { IfOk result (λ names. (sets : List Automaton) → AreNamesIn bench.now.position.now sets names) }
{
    level_at(bench, bench.position.mask(), None)
}

/// The set of the position alone.
fn point_set(
    bench: &PlanContext,
    memo: &mut Memo,
    sets: &SetStore,
    mask: u8,
) -> Result<Made, PlanError<PartName>>
    ensures answers { AnswersMade memo.old (plan.point_set (rules_on bench.now) mask) result }
    ensures set { IfOk result (λ made. IsSetFor bench.now (mask_of bench.now.position.now) made.set) }
    ensures budget { memo.new.budget ≡ memo.old.budget }
{
    let part = PartName {
        ply: 0,
        mask,
        part: Part::Point,
    };
    let formula = point_formula(bench.alloc, bench.position)?;
    make(bench.alloc, memo, part, 1, &formula, sets.table())
}

/// Computes the level that is reached without a move: the starting position alone.
pub fn point_level(
    bench: &PlanContext,
    work: &mut PlanState,
) -> Result<LevelNames, PlanError<PartName>>
    ensures answers { AnswersLevel bench.now work.old work.new named.point_level result }
    ensures names { IfOk result (AreNamesIn bench.now.position.now work.new.sets) }
    ensures later { IsLater work.old work.new }
{
    let mask = bench.position.mask();
    let made = point_set(bench, &mut work.memo, &work.sets, mask)?;
    let name = work.sets.keep(made.set)?;
    Ok(level_at(bench, mask, name)?)
}
