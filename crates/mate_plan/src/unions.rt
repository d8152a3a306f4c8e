//! Unions of a plan, each as a part of its own.
ghost use Rattle.std.specs.Prelude.{◌≡◌, ◌<◌, ◌^◌, All, IfOk, length, map};
ghost use Rattle.lin_formula.specs.SetOf.{as_set};
ghost use Rattle.lin_formula.specs.TreeOf.{tree_of};
ghost use Rattle.rule_formula.specs.Fits.{IsGameMask};
ghost use Rattle.set_plan.specs.Outcome.{Answers};
ghost use Rattle.set_plan.specs.Sets.{IsItemOn};
ghost use Rattle.mate_plan.specs.Levels.{AreNamesIn};
ghost use Rattle.mate_plan.specs.Bench.{IsNameFor, IsSetFor, tracks_on};
ghost use Rattle.mate_plan.specs.Named as named;

use crate::bench::PlanContext;
use crate::formulas::{bear_formulas, image_formulas, pre_formulas};
use crate::level::LevelNames;
use crate::names::{Part, PartName};
use crate::stage::{PartMoves, Stage, StageSet};
use crate::tracks::mask_tracks;
use auto_core::Auto;
use formula_auto::Memo;
use lin_formula::Formula;
use set_plan::{PartStep, PlanError, SetStore, unite};

/// The union of the sets of the formulas, which are over the men of the part's mask.
fn united(
    bench: &PlanContext,
    memo: &mut Memo,
    sets: &SetStore,
    part: PartName,
    formulas: &[Formula],
) -> Result<Option<Auto>, PlanError<PartName>>
    requires items { All (IsItemOn (tracks_on bench.now part.mask) sets.now) (map tree_of formulas.now) }
    requires few { length formulas.now < 2 ^ 20 }
    ensures answers { Answers (named.union part formulas.now bench.now sets.now) memo.old.budget as_set result }
    ensures set { IfOk result (IsSetFor bench.now part.mask) }
    ensures budget { memo.new.budget ≡ memo.old.budget }
{
    let tracks = mask_tracks(bench.alloc, bench.position, part.mask)?;
    let from = PartStep { part, at: 1 };
    let made = unite(bench.alloc, memo, &tracks, from, formulas, sets.table())?;
    Ok(made.set)
}

/// Computes the positions with the mask that the side's moves reach from the sets of a level.
pub(crate) fn image_set(
    bench: &PlanContext,
    memo: &mut Memo,
    sets: &SetStore,
    stage: Stage,
    level: &LevelNames,
) -> Result<Option<Auto>, PlanError<PartName>>
    requires level { AreNamesIn bench.now.position.now sets.now level.now }
    ensures answers { Answers (named.image_set stage level.now bench.now sets.now) memo.old.budget as_set result }
    ensures set { IfOk result (IsSetFor bench.now stage.mask) }
    ensures budget { memo.new.budget ≡ memo.old.budget }
{
    let formulas = image_formulas(bench, stage, level)?;
    united(bench, memo, sets, stage.part(Part::Image), &formulas)
}

/// Computes the positions of the stage's set from which the side has a move into a set of the level.
pub(crate) fn pre_set(
    bench: &PlanContext,
    memo: &mut Memo,
    sets: &SetStore,
    moves: &PartMoves,
) -> Result<Option<Auto>, PlanError<PartName>>
    requires source { IsNameFor bench.now moves.now.set.stage.mask sets.now moves.now.set.name }
    requires targets { AreNamesIn bench.now.position.now sets.now moves.now.into.now }
    ensures answers { Answers (named.pre_set moves.now bench.now sets.now) memo.old.budget as_set result }
    ensures set { IfOk result (IsSetFor bench.now moves.now.set.stage.mask) }
    ensures budget { memo.new.budget ≡ memo.old.budget }
{
    let formulas = pre_formulas(bench, moves.set, moves.into)?;
    united(
        bench,
        memo,
        sets,
        moves.set.stage.part(moves.part),
        &formulas,
    )
}

/// Computes the positions of the stage's set in which a man of the other side bears on the side's king.
pub(crate) fn check_set(
    bench: &PlanContext,
    memo: &mut Memo,
    sets: &SetStore,
    source: StageSet,
) -> Result<Option<Auto>, PlanError<PartName>>
    requires mask { IsGameMask bench.now.position.now source.stage.mask }
    requires source { IsNameFor bench.now source.stage.mask sets.now source.name }
    ensures answers { Answers (named.check_set source bench.now sets.now) memo.old.budget as_set result }
    ensures set { IfOk result (IsSetFor bench.now source.stage.mask) }
    ensures budget { memo.new.budget ≡ memo.old.budget }
{
    let StageSet { stage, name } = source;
    let formulas = bear_formulas(bench, stage.side.other(), stage.mask, name)?;
    united(bench, memo, sets, stage.part(Part::Check), &formulas)
}
