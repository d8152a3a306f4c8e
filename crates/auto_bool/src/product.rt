//! The product of two automata.
ghost use Rattle.std.specs.Prelude.{◌≡◌, ◌≤◌, ◌*◌, ◌↔◌, length, IfOk, OnOk, IsTrue};
ghost use Rattle.track_word.specs.Tracks.{with_vars};
ghost use Rattle.auto_core.specs.Reduced.{IsReduced, AllReached};
ghost use Rattle.auto_walk.specs.Walker.{MoreThan};
ghost use Rattle.auto_bool.specs.Both.{both_walker};
ghost use Rattle.auto_bool.specs.Absorbed.{IsProduct};
ghost use Rattle.auto_bool.specs.Words.{AcceptsBy, AcceptsBoth, AcceptsEither, AcceptsFirstOnly, StepExceeds};

use crate::both::Both;
use crate::connective::Connective;
use crate::sink::deciding_states;
use auto_core::Auto;
use auto_walk::{Grown, explored};
use diagram_product::Absorbing;
use limits::{Budget, MOST_TRACKS};
use std::alloc::Global;

/// Returns the product of any two automata, minimal or not: the automaton over the tracks of both that accepts by the connective,
/// each operand reading its own tracks.
/// Its states are the pairs of states that words reach (Rabin and Scott 1959). If the budget has room for all pairs of states, the
/// pairs in which one operand decides alone are one state. The result need not be minimal.
/// Errors: `Over` if words reach more pairs than the budget. Only for minimal operands does this mean that the step needs more
/// states than the budget. Costs the pairs of nodes that are visited over all rows.
fn product_within(
    alloc: Global,
    a: &Auto,
    b: &Auto,
    connective: Connective,
    budget: Budget,
) -> Result<Auto, Grown>
    requires tracks { length (with_vars a.now.tracks b.now.tracks) ≤ MOST_TRACKS }
    ensures tracks { IfOk result (λ m. m.tracks ≡ with_vars a.now.tracks b.now.tracks) }
    ensures words { IfOk result (AcceptsBy connective a.now b.now) }
    ensures reached { IfOk result AllReached }
    ensures few { IfOk result (λ m. length m.accept ≤ budget) }
    ensures within { OnOk result (¬ StepExceeds a.now b.now budget) }
    ensures over { IsReduced a.now → IsReduced b.now → result ≡ Err Grown.Over → StepExceeds a.now b.now budget }
    ensures many { result ≡ Err Grown.Over → MoreThan (both_walker a.now b.now connective) budget }
{
    if pairs_fit(a, b, budget) {
        match absorbed_product(alloc, a, b, connective, budget) {
            Ok(m) => return Ok(m),
            Err(Grown::Memory) => return Err(Grown::Memory),
            Err(Grown::Over) => {}
        }
    }
    let m = exact_product(alloc, a, b, connective, budget)?;
    Ok(m)
}

/// Returns whether the budget has room for all pairs of states.
pub fn pairs_fit(a: &Auto, b: &Auto, budget: Budget) -> bool
    ensures room { IsTrue result ↔ (length a.now.accept * length b.now.accept ≤ budget) }
    ensures within { IsTrue result → ¬ StepExceeds a.now b.now budget }
{
    u64::from(a.states()) * u64::from(b.states()) <= u64::from(budget.states())
}

/// Returns the product with one state for all pairs in which one operand decides alone. The number of pairs that words reach is
/// unknown.
fn absorbed_product(
    alloc: Global,
    a: &Auto,
    b: &Auto,
    connective: Connective,
    budget: Budget,
) -> Result<Auto, Grown>
    requires tracks { length (with_vars a.now.tracks b.now.tracks) ≤ MOST_TRACKS }
    ensures ok { IfOk result (IsProduct a.now b.now connective) }
    ensures few { IfOk result (λ m. length m.accept ≤ budget) }
{
    let both = Both::new(alloc, a, b, connective, deciding_states(a, b, connective))?;
    let m = explored(alloc, both, budget)?;
    Ok(m)
}

/// Returns the product with one state for each pair of states that words reach.
fn exact_product(
    alloc: Global,
    a: &Auto,
    b: &Auto,
    connective: Connective,
    budget: Budget,
) -> Result<Auto, Grown>
    requires tracks { length (with_vars a.now.tracks b.now.tracks) ≤ MOST_TRACKS }
    ensures ok { IfOk result (IsProduct a.now b.now connective) }
    ensures few { IfOk result (λ m. length m.accept ≤ budget) }
    ensures within { OnOk result (¬ StepExceeds a.now b.now budget) }
    ensures over { IsReduced a.now → IsReduced b.now → result ≡ Err Grown.Over → StepExceeds a.now b.now budget }
    ensures many { result ≡ Err Grown.Over → MoreThan (both_walker a.now b.now connective) budget }
{
    let both = Both::new(alloc, a, b, connective, Absorbing::nothing())?;
    explored(alloc, both, budget)
}

/// Returns the intersection: the automaton over the tracks of both of the words that both accept, each reading its own tracks.
/// It is the product of minimal automata. Errors: `Over` if the step needs more states than the budget, `Memory` if an allocation
/// fails.
pub fn meet(alloc: Global, a: &Auto, b: &Auto, budget: Budget) -> Result<Auto, Grown>
    requires a_reduced { IsReduced a.now }
    requires b_reduced { IsReduced b.now }
    requires tracks { length (with_vars a.now.tracks b.now.tracks) ≤ MOST_TRACKS }
    ensures tracks { IfOk result (λ m. m.tracks ≡ with_vars a.now.tracks b.now.tracks) }
    ensures words { IfOk result (AcceptsBoth a.now b.now) }
    ensures reached { IfOk result AllReached }
    ensures within { OnOk result (¬ StepExceeds a.now b.now budget) }
    ensures over { result ≡ Err Grown.Over → StepExceeds a.now b.now budget }
{
    let m = product_within(alloc, a, b, Connective::And, budget)?;
    Ok(m)
}

/// Returns the union: the automaton over the tracks of both of the words that at least one of them accepts, each reading its own
/// tracks. Otherwise it is as `meet`.
pub fn join(alloc: Global, a: &Auto, b: &Auto, budget: Budget) -> Result<Auto, Grown>
    requires a_reduced { IsReduced a.now }
    requires b_reduced { IsReduced b.now }
    requires tracks { length (with_vars a.now.tracks b.now.tracks) ≤ MOST_TRACKS }
    ensures tracks { IfOk result (λ m. m.tracks ≡ with_vars a.now.tracks b.now.tracks) }
    ensures words { IfOk result (AcceptsEither a.now b.now) }
    ensures reached { IfOk result AllReached }
    ensures within { OnOk result (¬ StepExceeds a.now b.now budget) }
    ensures over { result ≡ Err Grown.Over → StepExceeds a.now b.now budget }
{
    let m = product_within(alloc, a, b, Connective::Or, budget)?;
    Ok(m)
}

/// Returns the difference: the automaton over the tracks of both of the words that `a` accepts and `b` does not, each reading its
/// own tracks. Otherwise it is as `meet`; no complement is computed.
pub fn difference(alloc: Global, a: &Auto, b: &Auto, budget: Budget) -> Result<Auto, Grown>
    requires a_reduced { IsReduced a.now }
    requires b_reduced { IsReduced b.now }
    requires tracks { length (with_vars a.now.tracks b.now.tracks) ≤ MOST_TRACKS }
    ensures tracks { IfOk result (λ m. m.tracks ≡ with_vars a.now.tracks b.now.tracks) }
    ensures words { IfOk result (AcceptsFirstOnly a.now b.now) }
    ensures reached { IfOk result AllReached }
    ensures within { OnOk result (¬ StepExceeds a.now b.now budget) }
    ensures over { result ≡ Err Grown.Over → StepExceeds a.now b.now budget }
{
    let m = product_within(alloc, a, b, Connective::AndNot, budget)?;
    Ok(m)
}
