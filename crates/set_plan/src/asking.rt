//! Questions whose answers take steps.
ghost use Rattle.std.specs.Prelude.{ℕ, ◌≡◌, ◌<◌, ◌≤◌, ◌^◌, List, length, map, All, IfSome};
ghost use Rattle.track_word.specs.declared.tracks.Var.{Var};
ghost use Rattle.lin_formula.specs.TreeOf.{tree_of};
ghost use Rattle.formula_auto.specs.MemoState.{KeepsEntries};
ghost use Rattle.set_plan.specs.Making.{items_over};
ghost use Rattle.set_plan.specs.Outcome.{Answers, as_is};
ghost use Rattle.set_plan.specs.Sets.{IsItemOn, IsSetOn, lent};
ghost use Rattle.set_plan.specs.Unite as plan;

use crate::empty::{is_empty_set, is_none_or_empty};
use crate::left::{Left, difference_set};
use crate::parts::make_on;
use crate::stop::{PartStep, PlanError};
use auto_core::Auto;
use formula_auto::{Memo, SetTable};
use limits::Budget;
use lin_formula::Formula;
use std::alloc::Global;
use track_word::Var;

/// Decides whether the sets of all of the formulas are empty. They are computed in order, up to the first that is not empty, as one
/// part.
pub fn are_empty<P: Copy>(
    alloc: Global,
    memo: &mut Memo,
    part: P,
    formulas: &[Formula],
    sets: &SetTable,
) -> Result<bool, PlanError<P>>
    requires items { (tracks : List Var) × All (IsItemOn tracks sets.now) (map tree_of formulas.now) }
    requires few { length formulas.now < 2 ^ 20 }
    ensures answers { Answers (plan.are_empty part 1 (items_over sets.now formulas.now)) memo.old.budget as_is result }
    ensures budget { memo.new.budget ≡ memo.old.budget }
    ensures kept { KeepsEntries memo.old memo.new }
{
    let mut meets = memo.meets(alloc, sets);
    let mut at = 1;
    for f in formulas {
        let from = PartStep { part, at };
        let made = make_on(alloc, memo, &mut meets, from, f)?;
        if !is_none_or_empty(&made.set) {
            return Ok(false);
        }
        at = made.at;
    }
    Ok(true)
}

/// Decides whether the first set is a subset of the second, as a part of its own. It takes the steps of their difference.
pub fn is_within<P: Copy>(
    alloc: Global,
    tracks: &[Var],
    part: P,
    one: Option<&Auto>,
    other: Option<&Auto>,
    budget: Budget,
) -> Result<bool, PlanError<P>>
    requires one { IfSome one (λ a. IsSetOn tracks.now a.now) }
    requires other { IfSome other (λ a. IsSetOn tracks.now a.now) }
    ensures answers { Answers (plan.is_within tracks.now part (lent one.entry) (lent other.entry)) budget as_is result }
{
    let left = difference_set(alloc, tracks, part, one, other, budget)?;
    let Some(a) = one else {
        return Ok(true);
    };
    let _ = a.tracks(); // for its invariant
    match left {
        Left::Whole => Ok(is_empty_set(a)),
        Left::Part(set) => Ok(is_none_or_empty(&set)),
    }
}
