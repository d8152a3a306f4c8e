//! Sets that are borrowed by name.
ghost use Rattle.std.specs.Prelude.{◌≡◌, IfOk, IfSome, List};
ghost use Rattle.std.specs.Bool.{OnTrue, OnFalse};
ghost use Rattle.track_word.specs.declared.tracks.Var.{Var};
ghost use Rattle.lin_formula.specs.SetOf.{IsEmpty, as_set};
ghost use Rattle.set_plan.specs.Outcome.{Answers};
ghost use Rattle.set_plan.specs.Sets.{Grows, IsLeftOn, IsNameOn, IsSetOn, left_of, lent as lent_set, set_at};
ghost use Rattle.mate_plan.specs.Bench.{IsLater, IsNameFor, IsNameOfLeft, IsSetFor, tracks_on};
ghost use Rattle.mate_plan.specs.Named.{AnswersLeft, AnswersName, together_on};
ghost use Rattle.mate_plan.specs.Named as named;

use crate::bench::{PlanContext, PlanState};
use crate::names::PartName;
use crate::stage::PartSet;
use crate::tracks::mask_tracks;
use auto_core::Auto;
use limits::Budget;
use lin_formula::SetId;
use set_plan::{Left, PlanError, SetStore, difference_set, is_empty_set, union_of_two};
use std::alloc::AllocError;

/// Returns the set of a name, if there is one.
pub(crate) fn lent(sets: &SetStore, name: Option<SetId>) -> Option<&Auto>
    requires { (tracks : List Var) × IsNameOn tracks sets.now name }
    ensures set { lent_set result ≡ set_at sets.now name }
    ensures on { (tracks : List Var) → IsNameOn tracks sets.now name → IfSome result (λ a. IsSetOn tracks a.now) }
{
    match name {
        None => None,
        Some(id) => Some(sets.get(id)),
    }
}

/// Returns whether there is no set of the name.
pub(crate) fn is_lacking(sets: &SetStore, name: Option<SetId>) -> bool
    requires { (tracks : List Var) × IsNameOn tracks sets.now name }
    ensures yes { OnTrue result (IsEmpty (set_at sets.now name)) }
    ensures none { OnFalse result (¬ IsEmpty (set_at sets.now name)) }
{
    match name {
        None => true,
        Some(id) => is_empty_set(sets.get(id)),
    }
}

/// Returns what is left of a set without another one, over the men of the part's mask.
pub(crate) fn left_without(
    bench: &PlanContext,
    sets: &SetStore,
    whole: PartSet,
    other: Option<&Auto>,
    budget: Budget,
) -> Result<Left, PlanError<PartName>>
    requires one { IsNameFor bench.now whole.part.mask sets.now whole.name }
    requires other { IfSome other (λ a. IsSetOn (tracks_on bench.now whole.part.mask) a.now) }
    ensures answers { AnswersLeft bench.now sets.now whole other.entry budget result }
    ensures set { IfOk result (IsLeftOn (tracks_on bench.now whole.part.mask)) }
{
    let PartSet { part, name } = whole;
    let tracks = mask_tracks(bench.alloc, bench.position, part.mask)?;
    difference_set(bench.alloc, &tracks, part, lent(sets, name), other, budget)
}

/// Returns the name of what is left: that of the whole set, or that of a set that is stored now.
pub(crate) fn keep_left(
    sets: &mut SetStore,
    whole: Option<SetId>,
    left: Left,
) -> Result<Option<SetId>, AllocError>
    ensures set { IfOk result (λ name. set_at sets.new name ≡ left_of (set_at sets.old whole) left) }
    ensures name { IfOk result (IsNameOfLeft sets.old sets.new whole left) }
    ensures grows { Grows sets.old sets.new }
{
    match left {
        Left::Whole => Ok(whole),
        Left::Part(set) => sets.keep(set),
    }
}

/// Returns the name of what is left of a set without another one, over the men of the part's mask.
pub(crate) fn keep_without(
    bench: &PlanContext,
    work: &mut PlanState,
    whole: PartSet,
    other: Option<Auto>,
) -> Result<Option<SetId>, PlanError<PartName>>
    requires one { IsNameFor bench.now whole.part.mask work.old.sets whole.name }
    requires other { IsSetFor bench.now whole.part.mask other }
    ensures answers { AnswersName bench.now work.old work.new (named.without whole other) result }
    ensures name { IfOk result (IsNameFor bench.now whole.part.mask work.new.sets) }
    ensures later { IsLater work.old work.new }
{
    let budget = work.memo.budget();
    let left = left_without(bench, &work.sets, whole, other.as_ref(), budget)?;
    Ok(keep_left(&mut work.sets, whole.name, left)?)
}

/// Returns the union of two sets over the men of the part's mask.
pub(crate) fn joined(
    bench: &PlanContext,
    part: PartName,
    first: Option<Auto>,
    second: Option<Auto>,
    budget: Budget,
) -> Result<Option<Auto>, PlanError<PartName>>
    requires first { IsSetFor bench.now part.mask first }
    requires second { IsSetFor bench.now part.mask second }
    ensures answers { Answers (together_on bench.now part first second) budget as_set result }
    ensures set { IfOk result (IsSetFor bench.now part.mask) }
{
    let tracks = mask_tracks(bench.alloc, bench.position, part.mask)?;
    union_of_two(bench.alloc, &tracks, part, first, second, budget)
}
