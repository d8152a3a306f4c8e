//! Sets of formulas, and unions of lists of formulas.
ghost use Rattle.std.specs.Prelude.{ℕ, ◌≡◌, ◌<◌, ◌+◌, ◌≤◌, ◌^◌, length, map, All, IfOk, IfSome, ◌∷◌, []};
ghost use Rattle.auto_core.specs.Reduced.{IsReduced};
ghost use Rattle.lin_formula.specs.Tree.{free_vars, steps};
ghost use Rattle.lin_formula.specs.TreeOf.{tree_of};
ghost use Rattle.lin_formula.specs.SetOf.{as_set};
ghost use Rattle.formula_auto.specs.Compiled.{IsCompilable};
ghost use Rattle.formula_auto.specs.MemoState.{KeepsEntries};
ghost use Rattle.set_plan.specs.Making as making;
ghost use Rattle.set_plan.specs.Making.{AnswersMade, item_over, items_over};
ghost use Rattle.set_plan.specs.Outcome.{Answers};
ghost use Rattle.set_plan.specs.Sets.{IsSetBy, IsSetOn, IsReachedOn, IsReducedMade, IsItemOn, made_of};
ghost use Rattle.set_plan.specs.Unite as plan;

use crate::empty::{is_none_or_empty, lacks_a_set};
use crate::made::Made;
use crate::pairs::{reduced_set, united, united_reached};
use crate::steps::step_count;
use crate::stop::{PartStep, PlanError};
use auto_core::Auto;
use auto_walk::Grown;
use formula_auto::{MeetTable, Memo, SetTable};
use limits::Budget;
use lin_formula::Formula;
use shift_image::compile_image_on;
use std::alloc::{AllocError, Global};
use track_word::Var;

/// Returns the set of one formula, or none if a set that it needs is empty. Its first step has the number `at` in the part.
pub fn make<P: Copy>(
    alloc: Global,
    memo: &mut Memo,
    part: P,
    at: u32,
    f: &Formula,
    sets: &SetTable,
) -> Result<Made, PlanError<P>>
    requires compilable { IsCompilable (tree_of f.now) sets.now }
    requires few { length (steps (tree_of f.now)) < 1000 }
    requires room { at < 2 ^ 31 }
    ensures answers { AnswersMade memo.old (plan.make part at (item_over sets.now f.now)) result }
    ensures set { IfOk result (λ made. IfSome made.set (IsSetBy (tree_of f.now))) }
    ensures room { IfOk result (λ made. made.at < at + 1000) }
    ensures budget { memo.new.budget ≡ memo.old.budget }
    ensures kept { KeepsEntries memo.old memo.new }
{
    if lacks_a_set(f, sets) {
        return Ok(Made { set: None, at });
    }
    let count = step_count(f);
    let _ = memo.budget(); // for its invariant
    match memo.compile(alloc, f, sets) {
        Ok(a) => Ok(Made {
            set: Some(a),
            at: at + count,
        }),
        Err(why) => {
            let from = PartStep { part, at };
            Err(from.stopped(why))
        }
    }
}

/// Does as `make`, over the sets of a `MeetTable`; the result need not be minimal.
pub(crate) fn make_on<P: Copy>(
    alloc: Global,
    memo: &mut Memo,
    meets: &mut MeetTable,
    from: PartStep<P>,
    f: &Formula,
) -> Result<Made, PlanError<P>>
    requires item { IsItemOn (free_vars (tree_of f.now)) meets.old.sets (tree_of f.now) }
    requires same_budget { meets.old.budget ≡ memo.old.budget }
    requires room { from.at < 2 ^ 31 }
    ensures answers { AnswersMade memo.old (plan.make from.part from.at (item_over meets.old.sets f.now)) result }
    ensures set { IfOk result (λ made. IfSome made.set (IsReachedOn (free_vars (tree_of f.now)))) }
    ensures room { IfOk result (λ made. made.at < from.at + 1000) }
    ensures budget { memo.new.budget ≡ memo.old.budget }
    ensures kept { KeepsEntries memo.old memo.new }
    ensures same_sets { meets.new.sets ≡ meets.old.sets }
    ensures meets_budget { meets.new.budget ≡ meets.old.budget }
{
    if lacks_a_set(f, meets.sets()) {
        return Ok(Made {
            set: None,
            at: from.at,
        });
    }
    let count = step_count(f);
    let _ = memo.budget(); // for its invariant
    match compile_image_on(alloc, memo, f, meets) {
        Ok(a) => Ok(Made {
            set: Some(a),
            at: from.at + count,
        }),
        Err(why) => Err(from.stopped(why)),
    }
}

/// Does as `make`; the result need not be minimal.
pub fn make_reached<P: Copy>(
    alloc: Global,
    memo: &mut Memo,
    from: PartStep<P>,
    f: &Formula,
    sets: &SetTable,
) -> Result<Made, PlanError<P>>
    requires item { IsItemOn (free_vars (tree_of f.now)) sets.now (tree_of f.now) }
    requires room { from.at < 2 ^ 31 }
    ensures answers { AnswersMade memo.old (plan.make from.part from.at (item_over sets.now f.now)) result }
    ensures set { IfOk result (λ made. IfSome made.set (IsReachedOn (free_vars (tree_of f.now)))) }
    ensures room { IfOk result (λ made. made.at < from.at + 1000) }
    ensures budget { memo.new.budget ≡ memo.old.budget }
    ensures kept { KeepsEntries memo.old memo.new }
{
    let mut meets = memo.meets(alloc, sets);
    let made = make_on(alloc, memo, &mut meets, from, f);
    made
}

/// A union over these tracks, as a part.
#[derive(Drop)]
struct Uniting<'a, P> {
    alloc: Global,
    tracks: &'a [Var],
    part: P,
}

impl<P: Copy> Uniting<'_, P> {
    /// Returns the union so far with one more set. None of them need be minimal; nor is the result.
    fn join(&self, so_far: Option<Auto>, next: Made, budget: Budget) -> Result<Made, PlanError<P>>
        requires so_far { IfSome so_far (IsReachedOn self.now.tracks.now) }
        requires next { IfSome next.set (IsReachedOn self.now.tracks.now) }
        requires room { next.at < 2 ^ 31 }
        ensures answers { Answers (making.join self.now so_far next) budget made_of result }
        ensures set { IfOk result (λ made. IfSome made.set (IsReachedOn self.now.tracks.now)) }
        ensures room { IfOk result (λ made. made.at ≤ next.at + 1) }
    {
        let Made { set, at } = next;
        if is_none_or_empty(&set) {
            return Ok(Made { set: so_far, at });
        }
        if is_none_or_empty(&so_far) {
            return Ok(Made { set, at });
        }
        match (so_far, set) {
            (Some(a), Some(b)) => match united_reached(self.alloc, self.tracks, a, b, budget) {
                Ok(c) => Ok(Made {
                    set: Some(c),
                    at: at + 1,
                }),
                Err(Grown::Over) => Err(PlanError::Over(PartStep {
                    part: self.part,
                    at,
                })),
                Err(Grown::Memory) => Err(PlanError::Memory),
            },
            _ => unreachable!(),
        }
    }

    /// Returns the union so far with the set of one more formula, which is joined directly after its own steps.
    fn with_item(
        &self,
        memo: &mut Memo,
        meets: &mut MeetTable,
        f: &Formula,
        so_far: Made,
    ) -> Result<Made, PlanError<P>>
        requires item { IsItemOn self.now.tracks.now meets.old.sets (tree_of f.now) }
        requires same_budget { meets.old.budget ≡ memo.old.budget }
        requires so_far { IfSome so_far.set (IsReachedOn self.now.tracks.now) }
        requires room { so_far.at + 1001 < 2 ^ 31 }
        ensures answers { AnswersMade memo.old (making.with_item self.now meets.old.sets f.now so_far) result }
        ensures set { IfOk result (λ made. IfSome made.set (IsReachedOn self.now.tracks.now)) }
        ensures room { IfOk result (λ made. made.at ≤ so_far.at + 1001) }
        ensures budget { memo.new.budget ≡ memo.old.budget }
        ensures kept { KeepsEntries memo.old memo.new }
        ensures same_sets { meets.new.sets ≡ meets.old.sets }
        ensures meets_budget { meets.new.budget ≡ meets.old.budget }
    {
        let Made { set, at } = so_far;
        let from = PartStep {
            part: self.part,
            at,
        };
        let next = make_on(self.alloc, memo, meets, from, f)?;
        let budget = memo.budget();
        let made = self.join(set, next, budget)?;
        Ok(made)
    }

    /// Returns the union of the sets of the formulas, by steps from this one on. It need not be minimal.
    fn union_of(
        &self,
        memo: &mut Memo,
        meets: &mut MeetTable,
        at: u32,
        formulas: &[Formula],
    ) -> Result<Made, PlanError<P>>
        requires items { All (IsItemOn self.now.tracks.now meets.old.sets) (map tree_of formulas.now) }
        requires same_budget { meets.old.budget ≡ memo.old.budget }
        requires few { length formulas.now < 2 ^ 20 }
        requires room { at < 2 ^ 30 }
        ensures answers { AnswersMade memo.old (making.union_of self.now meets.old.sets at formulas.now) result }
        ensures set { IfOk result (λ made. IfSome made.set (IsReachedOn self.now.tracks.now)) }
        ensures budget { memo.new.budget ≡ memo.old.budget }
        ensures kept { KeepsEntries memo.old memo.new }
    {
        let mut made = Made { set: None, at };
        for f in formulas {
            made = self.with_item(memo, meets, f, made)?;
        }
        Ok(made)
    }
}

/// Returns the same set, minimized. Errors: an allocation failed.
pub fn reduced(alloc: Global, made: Made) -> Result<Made, AllocError>
    ensures { IfOk result (IsReducedMade made) }
{
    let Made { set, at } = made;
    let set = match set {
        Some(a) => Some(reduced_set(alloc, &a)?),
        None => None,
    };
    Ok(Made { set, at })
}

/// Returns the union of the sets of the formulas, which are over these tracks, by steps from this one on. An item is omitted if a
/// set that it needs is empty; the first nonempty set is taken, and each further one is joined directly after its own steps. Only
/// the result is minimized, once.
pub fn unite<P: Copy>(
    alloc: Global,
    memo: &mut Memo,
    tracks: &[Var],
    from: PartStep<P>,
    formulas: &[Formula],
    sets: &SetTable,
) -> Result<Made, PlanError<P>>
    requires items { All (IsItemOn tracks.now sets.now) (map tree_of formulas.now) }
    requires few { length formulas.now < 2 ^ 20 }
    requires room { from.at < 2 ^ 30 }
    ensures answers { AnswersMade memo.old (plan.unite_from tracks.now from (items_over sets.now formulas.now)) result }
    ensures set { IfOk result (λ made. IfSome made.set (IsSetOn tracks.now)) }
    ensures budget { memo.new.budget ≡ memo.old.budget }
    ensures kept { KeepsEntries memo.old memo.new }
{
    let PartStep { part, at } = from;
    let uniting = Uniting {
        alloc,
        tracks,
        part,
    };
    let mut meets = memo.meets(alloc, sets);
    let made = uniting.union_of(memo, &mut meets, at, formulas)?;
    Ok(reduced(alloc, made)?)
}

/// Returns the union of two sets over these tracks, as a part of its own.
pub fn union_of_two<P: Copy>(
    alloc: Global,
    tracks: &[Var],
    part: P,
    first: Option<Auto>,
    second: Option<Auto>,
    budget: Budget,
) -> Result<Option<Auto>, PlanError<P>>
    requires first { IfSome first (IsSetOn tracks.now) }
    requires second { IfSome second (IsSetOn tracks.now) }
    ensures answers { Answers (plan.union_of_two tracks.now part (as_set first) (as_set second)) budget as_set result }
    ensures set { IfOk result (λ set. IfSome set (IsSetOn tracks.now)) }
{
    if is_none_or_empty(&second) {
        return Ok(first);
    }
    if is_none_or_empty(&first) {
        return Ok(second);
    }
    match (first, second) {
        (Some(a), Some(b)) => match united(alloc, tracks, a, b, budget) {
            Ok(c) => Ok(Some(c)),
            Err(Grown::Over) => Err(PlanError::Over(PartStep { part, at: 1 })),
            Err(Grown::Memory) => Err(PlanError::Memory),
        },
        _ => unreachable!(),
    }
}
