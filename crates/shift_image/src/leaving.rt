//! The part of a shifted set for which some formulas are false.
ghost use Rattle.std.specs.Prelude.{◌≡◌, ◌≤◌, ◌<◌, ◌^◌, length, All, IfOk, IfSome};
ghost use Rattle.track_word.specs.Tracks.{with_vars};
ghost use Rattle.lin_formula.specs.Tree.{steps};
ghost use Rattle.lin_formula.specs.TreeOf.{tree_of};
ghost use Rattle.formula_auto.specs.Compiled.{IsAccessible, IsCompilable};
ghost use Rattle.formula_auto.specs.MemoState.{KeepsEntries};
ghost use Rattle.shift_image.specs.Read.{trees};
ghost use Rattle.shift_image.specs.LeftOut.{IsDifference, IsLeftOver, AreLeftInTurn, AreLeftOver, MayBeAsked, MayAllBeAsked, IsAnswered, AreFewOver, IsSomeOver};

use crate::tuples::Tuples;
use auto_bool::Connective;
use auto_core::Auto;
use auto_minimize::merged_product_within;
use auto_walk::Grown;
use formula_auto::{CompileError, Memo, SetTable};
use limits::{Budget, MOST_TRACKS};
use lin_formula::Formula;
use std::alloc::Global;

/// The sets that formulas name, and the state limit of an automaton.
#[derive(Drop)]
pub struct Scope<'a> {
    pub sets: &'a SetTable,
    pub each: Budget,
}

/// Returns the set without the tuples for which one of the formulas is true. `Over` does not mean that a step exceeds the budget.
pub(crate) fn minus_all(
    alloc: Global,
    memo: &mut Memo,
    set: Auto,
    formulas: &[&Formula],
    scope: &Scope,
) -> Result<Auto, Grown>
    requires { All (MayBeAsked scope.now.sets.now set.tracks) (trees formulas.now) }
    ensures left { IfOk result (AreLeftOver scope.now memo.old.budget (trees formulas.now) set) }
    ensures budget { memo.new.budget ≡ memo.old.budget }
    ensures kept { KeepsEntries memo.old memo.new }
{
    match left_at_once(alloc, memo, &set, formulas, scope)? {
        Some(left) => Ok(left),
        None => left_in_turn(alloc, memo, set, formulas, scope),
    }
}

/// Returns the same by one product with an automaton of the disjunction of the formulas. Built only if the budget has room for all
/// tuples of states of the set and of the formulas' automata, and if that is faster.
fn left_at_once(
    alloc: Global,
    memo: &mut Memo,
    set: &Auto,
    formulas: &[&Formula],
    scope: &Scope,
) -> Result<Option<Auto>, Grown>
    requires { All (MayBeAsked scope.now.sets.now set.now.tracks) (trees formulas.now) }
    ensures left { IfOk result
        (λ some. IfSome some (AreLeftOver scope.now memo.old.budget (trees formulas.now) set.now)) }
    ensures budget { memo.new.budget ≡ memo.old.budget }
    ensures kept { KeepsEntries memo.old memo.new }
{
    if formulas.len() < 2 {
        return Ok(None);
    }
    let _ = set.tracks(); // for its invariant
    let alone = Tuples::new(set.states(), scope.each);
    let Some(any) = any_of(alloc, memo, alone, formulas, scope)? else {
        return Ok(None);
    };
    let left = difference(alloc, set, &any, scope.each)?;
    Ok(Some(left))
}

/// Returns an automaton of the disjunction of the formulas, if the number of tuples of their states is small enough.
fn any_of(
    alloc: Global,
    memo: &mut Memo,
    before: Tuples,
    formulas: &[&Formula],
    scope: &Scope,
) -> Result<Option<Auto>, Grown>
    requires { MayAllBeAsked scope.now.sets.now (trees formulas.now) }
    ensures few { IfOk result
        (λ some. IfSome some (λ _. AreFewOver scope.now memo.old.budget (trees formulas.now) before)) }
    ensures some { IfOk result (λ some. IfSome some (IsSomeOver scope.now (trees formulas.now))) }
    ensures budget { memo.new.budget ≡ memo.old.budget }
    ensures kept { KeepsEntries memo.old memo.new }
{
    let Some((f, others)) = formulas.split_first() else {
        return Ok(None);
    };
    let asked = answered(alloc, memo, f, scope)?;
    let Some(tuples) = before.with(asked.states()) else {
        return Ok(None);
    };
    if others.is_empty() {
        return Ok(Some(asked));
    }
    let Some(rest) = any_of(alloc, memo, tuples, others, scope)? else {
        return Ok(None);
    };
    let any = merged_product_within(alloc, &asked, &rest, Connective::Or, scope.each)?;
    Ok(Some(any))
}

/// Returns the automaton of a formula. `Over` does not mean that a step exceeds the budget.
fn answered(alloc: Global, memo: &mut Memo, f: &Formula, scope: &Scope) -> Result<Auto, Grown>
    requires compilable { IsCompilable (tree_of f.now) scope.now.sets.now }
    requires few_steps { length (steps (tree_of f.now)) < 2 ^ 31 }
    ensures answered { IfOk result (IsAnswered scope.now memo.old.budget (tree_of f.now)) }
    ensures budget { memo.new.budget ≡ memo.old.budget }
    ensures kept { KeepsEntries memo.old memo.new }
{
    match memo.compile(alloc, f, scope.sets) {
        Ok(asked) => {
            let _ = asked.tracks(); // for its invariant
            Ok(asked)
        }
        Err(CompileError::Over { .. }) => Err(Grown::Over),
        Err(CompileError::Memory) => Err(Grown::Memory),
    }
}

/// Returns the same by a product with each of the formulas in turn.
fn left_in_turn(
    alloc: Global,
    memo: &mut Memo,
    set: Auto,
    formulas: &[&Formula],
    scope: &Scope,
) -> Result<Auto, Grown>
    requires { All (MayBeAsked scope.now.sets.now set.tracks) (trees formulas.now) }
    ensures left { IfOk result (AreLeftInTurn scope.now memo.old.budget (trees formulas.now) set) }
    ensures accessible { IfOk result
        (λ b. IsAccessible scope.now.each set → IsAccessible scope.now.each b) }
    ensures budget { memo.new.budget ≡ memo.old.budget }
    ensures kept { KeepsEntries memo.old memo.new }
{
    let mut auto = set;
    for f in formulas {
        auto = left_of(alloc, memo, &auto, f, scope)?;
    }
    Ok(auto)
}

/// Returns the set without the tuples for which one formula is true.
fn left_of(
    alloc: Global,
    memo: &mut Memo,
    a: &Auto,
    f: &Formula,
    scope: &Scope,
) -> Result<Auto, Grown>
    requires { MayBeAsked scope.now.sets.now a.now.tracks (tree_of f.now) }
    ensures left { IfOk result (IsLeftOver scope.now memo.old.budget (tree_of f.now) a.now) }
    ensures budget { memo.new.budget ≡ memo.old.budget }
    ensures kept { KeepsEntries memo.old memo.new }
{
    let _ = a.tracks(); // for its invariant
    let asked = answered(alloc, memo, f, scope)?;
    difference(alloc, a, &asked, scope.each)
}

/// Returns the difference of two automata.
fn difference(alloc: Global, a: &Auto, b: &Auto, each: Budget) -> Result<Auto, Grown>
    requires { length (with_vars a.now.tracks b.now.tracks) ≤ MOST_TRACKS }
    ensures { IfOk result (IsDifference each a.now b.now) }
{
    let only = merged_product_within(alloc, a, b, Connective::AndNot, each)?;
    Ok(only)
}
