//! Whether a set has only positions whose men stand on distinct squares, and only positions in which a king is safe.
ghost use Rattle.std.specs.Prelude.{◌≡◌, All, IfOk};
ghost use Rattle.rule_formula.specs.Fits.{IsGameMask};
ghost use Rattle.rule_formula.specs.Pairs.{IsPairOf};
ghost use Rattle.mate_plan.specs.Levels.{AreNamesIn};
ghost use Rattle.mate_plan.specs.Twins.{twin_trees, twins_by};
ghost use Rattle.mate_plan.specs.Named.{AnswersWhether};
ghost use Rattle.mate_plan.specs.Formulas.{HaveTrees};
ghost use Rattle.mate_plan.specs.Named as named;

use crate::bench::{PlanContext, PlanState};
use crate::formulas::bear_formulas;
use crate::level::name_in;
use crate::names::{Part, PartName};
use crate::stage::{MaskSet, StageLevel};
use lin_formula::{Formula, SetId};
use rule_formula::{ManPair, pairs, twins_formula};
use set_plan::{PlanError, are_empty};
use std::alloc::AllocError;

/// Returns the formula that the two men of one of the pairs stand on one square, in the set of a mask.
fn twins(
    bench: &PlanContext,
    source: MaskSet,
    pairs: &[ManPair],
) -> Result<Vec<Formula>, AllocError>
    requires pairs { All (IsPairOf bench.now.position.now.men source.mask) pairs.now }
    ensures { IfOk result (HaveTrees (twins_by source.mask source.set.0 pairs.now)) }
{
    let mut formulas = Vec::new(bench.alloc);
    for pair in pairs {
        let MaskSet { mask, set } = source;
        formulas.push(twins_formula(bench.alloc, pair.first, pair.second, mask, set)?)?;
    }
    Ok(formulas)
}

/// Returns the formulas that two live men stand on one square, in the set of a mask, pair by pair.
fn twin_formulas(
    bench: &PlanContext,
    mask: u8,
    source: Option<SetId>,
) -> Result<Vec<Formula>, AllocError>
    ensures { IfOk result (HaveTrees (twin_trees bench.now.position.now mask source)) }
{
    let Some(set) = source else {
        return Ok(Vec::new(bench.alloc));
    };
    let all = pairs(bench.alloc, bench.position, mask)?;
    twins(bench, MaskSet { mask, set }, all.as_slice())
}

/// Returns whether live men stand on distinct squares in each position of the stage's set.
pub fn are_on_distinct_squares(
    bench: &PlanContext,
    work: &mut PlanState,
    at: &StageLevel,
) -> Result<bool, PlanError<PartName>>
    requires mask { IsGameMask bench.now.position.now at.now.stage.mask }
    requires level { AreNamesIn bench.now.position.now work.old.sets at.now.level.now }
    ensures answers { AnswersWhether bench.now work.old (named.are_on_distinct_squares at.now) result }
    ensures sets { work.new.sets ≡ work.old.sets }
    ensures budget { work.new.memo.budget ≡ work.old.memo.budget }
{
    let source = name_in(bench, at.level, at.stage.mask);
    let formulas = twin_formulas(bench, at.stage.mask, source)?;
    let part = at.stage.part(Part::Same);
    are_empty(
        bench.alloc,
        &mut work.memo,
        part,
        &formulas,
        work.sets.table(),
    )
}

/// Returns whether in no position of the stage's set a man of the side to move bears on the other king.
pub fn are_safe(
    bench: &PlanContext,
    work: &mut PlanState,
    at: &StageLevel,
) -> Result<bool, PlanError<PartName>>
    requires mask { IsGameMask bench.now.position.now at.now.stage.mask }
    requires level { AreNamesIn bench.now.position.now work.old.sets at.now.level.now }
    ensures answers { AnswersWhether bench.now work.old (named.are_safe at.now) result }
    ensures sets { work.new.sets ≡ work.old.sets }
    ensures budget { work.new.memo.budget ≡ work.old.memo.budget }
{
    let source = name_in(bench, at.level, at.stage.mask);
    let formulas = bear_formulas(bench, at.stage.side, at.stage.mask, source)?;
    let part = at.stage.part(Part::Guard);
    are_empty(
        bench.alloc,
        &mut work.memo,
        part,
        &formulas,
        work.sets.table(),
    )
}
