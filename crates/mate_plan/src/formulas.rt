//! The formulas of the unions of a plan.
ghost use Rattle.std.specs.Prelude.{All, IfOk, OnOk};
ghost use Rattle.rule_formula.specs.Fits.{IsGameMask};
ghost use Rattle.rule_formula.specs.Meaning.{IsBearer, IsOptionOf};
ghost use Rattle.mate_plan.specs.Formulas.{AreAdded, HaveTrees, bear_trees, bears_by, image_to, image_trees, images_to, pre_to, pres_to, stage_images, stage_pres};

use crate::bench::PlanContext;
use crate::level::{LevelNames, name_in};
use crate::stage::{MaskSet, Stage, StageSet};
use game_rules::Side;
use lin_formula::{Formula, SetId};
use rule_formula::{
    Bearing, Opt, StepSets, bear_formula, bearings, image_formula, options, pre_formula,
};
use std::alloc::AllocError;

/// Appends the formula of the targets of the option from the set of a mask, if it leads to the other mask.
fn push_image(
    bench: &PlanContext,
    formulas: &mut Vec<Formula>,
    from: MaskSet,
    to: u8,
    option: Opt,
) -> Result<(), AllocError>
    requires option { IsOptionOf bench.now.position.now.men from.mask option }
    ensures { OnOk result (AreAdded (image_to bench.now.position.now from to option) formulas.old formulas.new) }
{
    if option.target(from.mask) == to {
        let image = image_formula(bench.alloc, bench.position, from.mask, option, from.set)?;
        formulas.push(image)?;
    }
    Ok(())
}

/// Appends the formulas of the targets of the options from the set of a mask, for the options that lead to the other
/// mask.
fn push_images(
    bench: &PlanContext,
    formulas: &mut Vec<Formula>,
    from: MaskSet,
    to: u8,
    options: &[Opt],
) -> Result<(), AllocError>
    requires options { All (IsOptionOf bench.now.position.now.men from.mask) options.now }
    ensures { OnOk result (AreAdded (images_to bench.now.position.now from to options.now) formulas.old formulas.new) }
{
    for option in options {
        push_image(bench, formulas, from, to, *option)?;
    }
    Ok(())
}

/// Appends the formulas of the targets of the side's moves from the set of a mask, with the mask of the stage, if there
/// is a set.
fn push_mask(
    bench: &PlanContext,
    formulas: &mut Vec<Formula>,
    stage: Stage,
    mask: u8,
    source: Option<SetId>,
) -> Result<(), AllocError>
    ensures { OnOk result
        (AreAdded (stage_images bench.now.position.now stage mask source) formulas.old formulas.new) }
{
    let Some(set) = source else {
        return Ok(());
    };
    let all = options(bench.alloc, bench.position, mask, stage.side)?;
    let from = MaskSet { mask, set };
    push_images(bench, formulas, from, stage.mask, all.as_slice())
}

/// Returns the formulas of the positions with the stage's mask that the side's moves reach from the sets of a level:
/// mask by mask, and option by option for each mask.
pub(crate) fn image_formulas(
    bench: &PlanContext,
    stage: Stage,
    level: &LevelNames,
) -> Result<Vec<Formula>, AllocError>
    ensures { IfOk result (HaveTrees (image_trees bench.now.position.now stage.side stage.mask level.now)) }
{
    let mut formulas = Vec::new(bench.alloc);
    for mask in bench.masks {
        let source = name_in(bench, level, *mask);
        push_mask(bench, &mut formulas, stage, *mask, source)?;
    }
    Ok(formulas)
}

/// Appends the formula of the moves by the option from the first set into the second, if there is one.
fn push_pre(
    bench: &PlanContext,
    formulas: &mut Vec<Formula>,
    from: MaskSet,
    option: Opt,
    target: Option<SetId>,
) -> Result<(), AllocError>
    requires { IsOptionOf bench.now.position.now.men from.mask option }
    ensures { OnOk result (AreAdded (pre_to bench.now.position.now from option target) formulas.old formulas.new) }
{
    if let Some(target) = target {
        let sets = StepSets {
            before: from.set,
            after: target,
        };
        let pre = pre_formula(bench.alloc, bench.position, from.mask, option, sets)?;
        formulas.push(pre)?;
    }
    Ok(())
}

/// Returns the formulas of the moves by one of the options from the set of a mask into a set of a level.
fn pre_options(
    bench: &PlanContext,
    from: MaskSet,
    targets: &LevelNames,
    options: &[Opt],
) -> Result<Vec<Formula>, AllocError>
    requires options { All (IsOptionOf bench.now.position.now.men from.mask) options.now }
    ensures { IfOk result (HaveTrees (pres_to bench.now.position.now from targets.now options.now)) }
{
    let mut formulas = Vec::new(bench.alloc);
    for option in options {
        let target = name_in(bench, targets, option.target(from.mask));
        push_pre(bench, &mut formulas, from, *option, target)?;
    }
    Ok(formulas)
}

/// Returns the formulas of the positions of the stage's set from which the side has a move into a set of a level,
/// option by option.
pub(crate) fn pre_formulas(
    bench: &PlanContext,
    source: StageSet,
    targets: &LevelNames,
) -> Result<Vec<Formula>, AllocError>
    ensures { IfOk result (HaveTrees (stage_pres bench.now.position.now source targets.now)) }
{
    let Some(set) = source.name else {
        return Ok(Vec::new(bench.alloc));
    };
    let mask = source.stage.mask;
    let all = options(bench.alloc, bench.position, mask, source.stage.side)?;
    pre_options(bench, MaskSet { mask, set }, targets, all.as_slice())
}

/// Returns the formulas that one of the bearings attacks, in the set of a mask.
fn bears(
    bench: &PlanContext,
    source: MaskSet,
    bearings: &[Bearing],
) -> Result<Vec<Formula>, AllocError>
    requires { All (λ b. IsBearer bench.now.position.now.men source.mask b.man b.ray b.king) bearings.now }
    ensures { IfOk result (HaveTrees (bears_by bench.now.position.now source bearings.now)) }
{
    let mut formulas = Vec::new(bench.alloc);
    for b in bearings {
        let MaskSet { mask, set } = source;
        let bear = bear_formula(bench.alloc, bench.position, mask, *b, set)?;
        formulas.push(bear)?;
    }
    Ok(formulas)
}

/// Returns the formulas of the positions of a mask's set in which a man of the side bears on the other king, bearing by
/// bearing.
pub(crate) fn bear_formulas(
    bench: &PlanContext,
    side: Side,
    mask: u8,
    source: Option<SetId>,
) -> Result<Vec<Formula>, AllocError>
    requires mask { IsGameMask bench.now.position.now mask }
    ensures { IfOk result (HaveTrees (bear_trees bench.now.position.now side mask source)) }
{
    let Some(set) = source else {
        return Ok(Vec::new(bench.alloc));
    };
    let all = bearings(bench.alloc, bench.position, mask, side)?;
    bears(bench, MaskSet { mask, set }, all.as_slice())
}
