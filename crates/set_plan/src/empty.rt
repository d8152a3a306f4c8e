//! Emptiness of sets.
ghost use Rattle.std.specs.Prelude.{◌≡◌, IfSome, length, map};
ghost use Rattle.std.specs.Bool.{OnTrue, OnFalse};
ghost use Rattle.auto_core.specs.Reduced.{IsReduced, AllReached};
ghost use Rattle.lin_formula.specs.SetOf.{Table, as_set, tables, IsEmpty, SomeEmpty, NoneEmpty};
ghost use Rattle.lin_formula.specs.TreeOf.{tree_of};
ghost use Rattle.formula_auto.specs.Ready.{IsReady};
ghost use Rattle.set_plan.specs.Unite.{positives};

use auto_core::Auto;
use auto_reduce::is_empty;
use formula_auto::SetTable;
use lin_formula::Formula;

/// Returns whether a set is empty.
pub fn is_empty_set(a: &Auto) -> bool
    requires { IsReduced a.now }
    ensures yes { OnTrue result (IsEmpty (Table a.now)) }
    ensures none { OnFalse result (¬ IsEmpty (Table a.now)) }
{
    has_no_tuple(a)
}

/// Returns whether the set of an automaton, which need not be minimal, is empty.
pub fn has_no_tuple(a: &Auto) -> bool
    requires { AllReached a.now }
    ensures yes { OnTrue result (IsEmpty (Table a.now)) }
    ensures none { OnFalse result (¬ IsEmpty (Table a.now)) }
{
    let _ = a.tracks(); // for its invariant
    is_empty(a)
}

/// Returns whether there is no set, or an empty one.
pub(crate) fn is_none_or_empty(set: &Option<Auto>) -> bool
    requires { IfSome set.now AllReached }
    ensures yes { OnTrue result (IsEmpty (as_set set.now)) }
    ensures none { OnFalse result (¬ IsEmpty (as_set set.now)) }
{
    match set {
        None => true,
        Some(a) => has_no_tuple(a),
    }
}

/// Returns whether one of the sets is empty that the formula names outside of negations and disjunctions. Recurses one call per
/// level.
pub(crate) fn lacks_a_set(f: &Formula, sets: &SetTable) -> bool
    requires { IsReady (tree_of f.now) sets.now }
    ensures yes { OnTrue result (SomeEmpty (map (tables sets.now) (positives (tree_of f.now)))) }
    ensures none { OnFalse result (NoneEmpty (map (tables sets.now) (positives (tree_of f.now)))) }
{
    match f {
        Formula::Among { set, .. } => match sets.get(*set) {
            Some(a) => has_no_tuple(a),
            None => unreachable!(),
        },
        Formula::And(g, h) => lacks_a_set(g, sets) || lacks_a_set(h, sets),
        Formula::Ex { body, .. } => lacks_a_set(body, sets),
        _ => false,
    }
}
