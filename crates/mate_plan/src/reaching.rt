//! The reached sets of a ply.
ghost use Rattle.std.specs.Prelude.{◌≡◌, IfOk};
ghost use Rattle.rule_formula.specs.Fits.{IsGameMask};
ghost use Rattle.mate_plan.specs.Levels.{AreNamesIn};
ghost use Rattle.mate_plan.specs.Bench.{IsLater, IsNameFor, IsSetFor};
ghost use Rattle.mate_plan.specs.Named.{AnswersLevel, AnswersName, AnswersSet};
ghost use Rattle.mate_plan.specs.Named as named;

use crate::bench::{PlanContext, PlanState};
use crate::by_mask::{LevelBuilder, level_by};
use crate::level::LevelNames;
use crate::names::PartName;
use crate::narrowing::narrow;
use crate::stage::Stage;
use crate::unions::image_set;
use auto_core::Auto;
use game_rules::Side;
use lin_formula::SetId;
use rule_formula::bearings;
use set_plan::PlanError;

/// The inputs of the reached level of a ply: what is reached at the ply before it, where `side` is to move.
#[derive(Clone, Copy)]
pub struct ReachedLevel<'a> {
    pub side: Side,
    /// The ply in the names of the steps.
    pub ply: u8,
    pub level: &'a LevelNames,
}

/// What is reached with the mask.
fn reach_set(
    bench: &PlanContext,
    work: &mut PlanState,
    from: &ReachedLevel,
    mask: u8,
) -> Result<Option<Auto>, PlanError<PartName>>
    requires mask { IsGameMask bench.now.position.now mask }
    requires level { AreNamesIn bench.now.position.now work.old.sets from.now.level.now }
    ensures answers { AnswersSet bench.now work.old (named.reach_set from.now mask) result }
    ensures set { IfOk result (IsSetFor bench.now mask) }
    ensures later { IsLater work.old work.new }
{
    let ReachedLevel { side, ply, level } = *from;
    let stage = Stage { side, ply, mask };
    let moved = image_set(bench, &mut work.memo, &work.sets, stage, level)?;
    let attacks = bearings(bench.alloc, bench.position, mask, side.other())?;
    narrow(bench, work, stage, attacks.as_slice(), moved)
}

/// The name of what is reached with the mask.
fn reach_name(
    bench: &PlanContext,
    work: &mut PlanState,
    from: &ReachedLevel,
    mask: u8,
) -> Result<Option<SetId>, PlanError<PartName>>
    requires mask { IsGameMask bench.now.position.now mask }
    requires level { AreNamesIn bench.now.position.now work.old.sets from.now.level.now }
    ensures answers { AnswersName bench.now work.old work.new (named.reach_set from.now mask) result }
    ensures name { IfOk result (IsNameFor bench.now mask work.new.sets) }
    ensures later { IsLater work.old work.new }
{
    let set = reach_set(bench, work, from, mask)?;
    Ok(work.sets.keep(set)?)
}

impl LevelBuilder for ReachedLevel<'_> {
    ghost use Rattle.mate_plan.specs.Levels.{AreNamesIn, level_in};
    ghost use Rattle.mate_plan.specs.Plan as plan;
    ghost use Rattle.mate_plan.specs.PlanOf.{rules_of};

    ghost program = { λ it p sets. plan.reach_set (rules_of p) it.side it.ply (level_in p sets it.level.now) };

    ghost fits = { λ it p sets. AreNamesIn p sets it.level.now };

    fn name(
        &self,
        bench: &PlanContext,
        work: &mut PlanState,
        mask: u8,
    ) -> Result<Option<SetId>, PlanError<PartName>> {
        reach_name(bench, work, self, mask)
    }
}

/// Computes the reached level of a ply.
pub fn reach_level(
    bench: &PlanContext,
    work: &mut PlanState,
    from: &ReachedLevel,
) -> Result<LevelNames, PlanError<PartName>>
    requires level { AreNamesIn bench.now.position.now work.old.sets from.now.level.now }
    ensures answers { AnswersLevel bench.now work.old work.new (named.reach_level from.now) result }
    ensures names { IfOk result (AreNamesIn bench.now.position.now work.new.sets) }
    ensures later { IsLater work.old work.new }
{
    level_by(bench, work, from)
}
