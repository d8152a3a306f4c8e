//! Two sets over the same tracks.
ghost use Rattle.std.specs.Prelude.{◌≡◌, IfOk, OnOk, Err};
ghost use Rattle.lin_formula.specs.SetOf.{Table};
ghost use Rattle.set_plan.specs.Program.{IsSetOf, LastExceeds};
ghost use Rattle.set_plan.specs.Sets.{IsSetOn, IsReachedOn, IsReductionOf};
ghost use Rattle.set_plan.specs.Unite.{difference as difference_of, either as either_of};

use auto_bool::{Connective, difference, join, operand_by};
use auto_core::Auto;
use auto_minimize::merged_product_within;
use auto_reduce::reduce;
use auto_walk::Grown;
use limits::Budget;
use std::alloc::{AllocError, Global};
use track_word::Var;

/// Returns the union of two sets.
fn either(alloc: Global, tracks: &[Var], a: &Auto, b: &Auto, budget: Budget) -> Result<Auto, Grown>
    requires first { IsSetOn tracks.now a.now }
    requires second { IsSetOn tracks.now b.now }
    ensures ok { IfOk result (λ c. IsSetOf (either_of tracks.now (Table a.now) (Table b.now)) (Table c)) }
    ensures set { IfOk result (IsSetOn tracks.now) }
    ensures within { OnOk result (¬ LastExceeds (either_of tracks.now (Table a.now) (Table b.now)) budget) }
    ensures over { result ≡ Err Grown.Over → LastExceeds (either_of tracks.now (Table a.now) (Table b.now)) budget }
{
    let _ = a.tracks(); // for its invariant
    let _ = budget.states(); // for its invariant
    let c = join(alloc, a, b, budget)?;
    Ok(reduce(alloc, &c)?)
}

/// Returns the union of two sets, none of which need be minimal; nor is the result, whose states are merged in one pass. If the
/// pairs of states exceed the budget, both are minimized first, since the step may still be within the budget.
fn either_reached(
    alloc: Global,
    tracks: &[Var],
    a: &Auto,
    b: &Auto,
    budget: Budget,
) -> Result<Auto, Grown>
    requires first { IsReachedOn tracks.now a.now }
    requires second { IsReachedOn tracks.now b.now }
    ensures ok { IfOk result (λ c. IsSetOf (either_of tracks.now (Table a.now) (Table b.now)) (Table c)) }
    ensures set { IfOk result (IsReachedOn tracks.now) }
    ensures within { OnOk result (¬ LastExceeds (either_of tracks.now (Table a.now) (Table b.now)) budget) }
    ensures over { result ≡ Err Grown.Over → LastExceeds (either_of tracks.now (Table a.now) (Table b.now)) budget }
{
    let _ = a.tracks(); // for its invariant
    let _ = budget.states(); // for its invariant
    match merged_product_within(alloc, a, b, Connective::Or, budget) {
        Ok(c) => Ok(c),
        Err(Grown::Over) => either_of_reduced(alloc, tracks, a, b, budget),
        Err(Grown::Memory) => Err(Grown::Memory),
    }
}

/// Returns the union of two owned sets. If it is known to equal one of them, that one is returned.
pub(crate) fn united(
    alloc: Global,
    tracks: &[Var],
    a: Auto,
    b: Auto,
    budget: Budget,
) -> Result<Auto, Grown>
    requires first { IsSetOn tracks.now a }
    requires second { IsSetOn tracks.now b }
    ensures ok { IfOk result (λ c. IsSetOf (either_of tracks.now (Table a) (Table b)) (Table c)) }
    ensures set { IfOk result (IsSetOn tracks.now) }
    ensures within { OnOk result (¬ LastExceeds (either_of tracks.now (Table a) (Table b)) budget) }
    ensures over { result ≡ Err Grown.Over → LastExceeds (either_of tracks.now (Table a) (Table b)) budget }
{
    let _ = a.tracks(); // for its invariant
    match operand_by(&a, &b, Connective::Or, budget) {
        Some(operand) => Ok(operand.of(a, b)),
        None => either(alloc, tracks, &a, &b, budget),
    }
}

/// Returns the union as `united` does, of sets that need not be minimal; nor is the result.
pub(crate) fn united_reached(
    alloc: Global,
    tracks: &[Var],
    a: Auto,
    b: Auto,
    budget: Budget,
) -> Result<Auto, Grown>
    requires first { IsReachedOn tracks.now a }
    requires second { IsReachedOn tracks.now b }
    ensures ok { IfOk result (λ c. IsSetOf (either_of tracks.now (Table a) (Table b)) (Table c)) }
    ensures set { IfOk result (IsReachedOn tracks.now) }
    ensures within { OnOk result (¬ LastExceeds (either_of tracks.now (Table a) (Table b)) budget) }
    ensures over { result ≡ Err Grown.Over → LastExceeds (either_of tracks.now (Table a) (Table b)) budget }
{
    let _ = a.tracks(); // for its invariant
    match operand_by(&a, &b, Connective::Or, budget) {
        Some(operand) => Ok(operand.of(a, b)),
        None => either_reached(alloc, tracks, &a, &b, budget),
    }
}

/// Returns the union of the two sets minimized.
fn either_of_reduced(
    alloc: Global,
    tracks: &[Var],
    a: &Auto,
    b: &Auto,
    budget: Budget,
) -> Result<Auto, Grown>
    requires first { IsReachedOn tracks.now a.now }
    requires second { IsReachedOn tracks.now b.now }
    ensures ok { IfOk result (λ c. IsSetOf (either_of tracks.now (Table a.now) (Table b.now)) (Table c)) }
    ensures set { IfOk result (IsSetOn tracks.now) }
    ensures within { OnOk result (¬ LastExceeds (either_of tracks.now (Table a.now) (Table b.now)) budget) }
    ensures over { result ≡ Err Grown.Over → LastExceeds (either_of tracks.now (Table a.now) (Table b.now)) budget }
{
    let left = reduced_set(alloc, a)?;
    let right = reduced_set(alloc, b)?;
    let c = either(alloc, tracks, &left, &right, budget)?;
    Ok(c)
}

/// Returns the same set, minimized. Errors: an allocation failed.
pub(crate) fn reduced_set(alloc: Global, a: &Auto) -> Result<Auto, AllocError>
    ensures { IfOk result (IsReductionOf a.now) }
{
    let r = reduce(alloc, a)?;
    Ok(r)
}

/// Returns the difference of two sets.
pub(crate) fn except(
    alloc: Global,
    tracks: &[Var],
    a: &Auto,
    b: &Auto,
    budget: Budget,
) -> Result<Auto, Grown>
    requires first { IsSetOn tracks.now a.now }
    requires second { IsSetOn tracks.now b.now }
    ensures ok { IfOk result (λ c. IsSetOf (difference_of tracks.now (Table a.now) (Table b.now)) (Table c)) }
    ensures set { IfOk result (IsSetOn tracks.now) }
    ensures within { OnOk result (¬ LastExceeds (difference_of tracks.now (Table a.now) (Table b.now)) budget) }
    ensures over { result ≡ Err Grown.Over → LastExceeds (difference_of tracks.now (Table a.now) (Table b.now)) budget }
{
    let _ = a.tracks(); // for its invariant
    let _ = budget.states(); // for its invariant
    let c = difference(alloc, a, b, budget)?;
    Ok(reduce(alloc, &c)?)
}
