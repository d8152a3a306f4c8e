//! Narrows a set to the positions in which a king is not attacked.
ghost use Rattle.std.specs.Prelude.{◌≡◌, ◌≤◌, All, IfOk, length};
ghost use Rattle.rule_formula.specs.Meaning.{IsBearer};
ghost use Rattle.mate_plan.specs.Bench.{IsLater, IsSetFor};
ghost use Rattle.mate_plan.specs.Named.{AnswersSet};
ghost use Rattle.mate_plan.specs.Named as named;

use crate::bench::{PlanContext, PlanState};
use crate::names::{Part, PartName};
use crate::stage::Stage;
use auto_core::Auto;
use rule_formula::{Bearing, safe_formula};
use set_plan::{Made, PartStep, PlanError, ProgramFold, each, make_reached, reduced};

/// The set of a stage that is narrowed by one bearing after the other. Intermediate results need not be reduced.
#[derive(Drop)]
struct Narrowing<'a> {
    bench: &'a PlanContext<'a>,
    stage: Stage,
}

impl ProgramFold for Narrowing<'_> {
    ghost use Rattle.std.specs.Prelude.{◌<◌, ◌+◌, ◌*◌, ◌^◌, All, IfSome, length};
    ghost use Rattle.rule_formula.specs.Mean.{mask_tracks as tracks_at};
    ghost use Rattle.rule_formula.specs.Meaning.{IsBearer};
    ghost use Rattle.set_plan.specs.Sets.{Grows, IsReachedOn, made_of};
    ghost use Rattle.set_plan.specs.Unite as made;
    ghost use Rattle.mate_plan.specs.Plan as plan;
    ghost use Rattle.mate_plan.specs.PlanOf.{rules_of};

    type Work = PlanState;

    type Item = Bearing;

    type Value = Made;

    type Part = PartName;

    ghost Seen = { made.Made };

    ghost view = { λ _ _ so_far. made_of so_far };

    ghost program = { λ it _ b. plan.narrow_by (rules_of it.bench.now.position.now) it.stage.ply it.stage.mask b };

    ghost budget = { λ _ work. work.memo.budget };

    ghost fits = { λ it _ so_far bearings. All (λ b. IsBearer it.bench.now.position.now.men it.stage.mask b.man b.ray b.king) bearings
        × IfSome so_far.set (IsReachedOn (tracks_at it.bench.now.position.now it.stage.mask))
        × (so_far.at + length bearings * 1000 < 2 ^ 31) };

    ghost keeps = { λ _ u v. Grows u.sets v.sets };

    ghost keeps_self = { λ _ _ _ _ e. e };

    ghost keeps_on = { λ _ _ _ _ first second k a e. second k a (first k a e) };

    /// The set is kept for as long only as it is needed.
    fn step(
        &self,
        work: &mut PlanState,
        bearing: &Bearing,
        so_far: Made,
    ) -> Result<Made, PlanError<PartName>> {
        let Made { set, at } = so_far;
        let Some(source) = set else {
            return Ok(Made { set: None, at });
        };
        let PlanContext {
            alloc,
            position,
            ..
        } = *self.bench;
        let count = work.sets.count();
        let id = work.sets.put(source)?;
        let formula = safe_formula(alloc, position, self.stage.mask, *bearing, id)?;
        let from = PartStep {
            part: self.stage.part(Part::Safe),
            at,
        };
        let made = make_reached(alloc, &mut work.memo, from, &formula, work.sets.table())?;
        work.sets.truncate(count);
        Ok(made)
    }
}

/// Narrows the set by each of the bearings in turn. Only the last result is reduced.
pub(crate) fn narrow(
    bench: &PlanContext,
    work: &mut PlanState,
    stage: Stage,
    bearings: &[Bearing],
    moved: Option<Auto>,
) -> Result<Option<Auto>, PlanError<PartName>>
    requires bearings { All (λ b. IsBearer bench.now.position.now.men stage.mask b.man b.ray b.king) bearings.now }
    requires few { length bearings.now ≤ 1000 }
    requires set { IsSetFor bench.now stage.mask moved }
    ensures answers { AnswersSet bench.now work.old (named.narrow stage bearings.now moved) result }
    ensures set { IfOk result (IsSetFor bench.now stage.mask) }
    ensures later { IsLater work.old work.new }
{
    if bearings.is_empty() {
        return Ok(moved);
    }
    let narrowing = Narrowing { bench, stage };
    let made = each(&narrowing, work, bearings, Made { set: moved, at: 1 })?;
    let last = reduced(bench.alloc, made)?;
    Ok(last.set)
}
