//! The product of two automata, merged.
ghost use Rattle.std.specs.Prelude.{◌≡◌, ◌≤◌, Err, length, IfOk, OnOk};
ghost use Rattle.track_word.specs.Tracks.{with_vars};
ghost use Rattle.auto_core.specs.Reduced.{IsReduced, AllReached};
ghost use Rattle.auto_walk.specs.Walker.{MoreThan};
ghost use Rattle.auto_bool.specs.Both.{both_walker};
ghost use Rattle.auto_bool.specs.Absorbed.{AreSinks, IsProduct};
ghost use Rattle.auto_bool.specs.Words.{AcceptsBy, StepExceeds};

use crate::settling::merge_rows;
use auto_bool::{Connective, deciding_states, pairs_fit};
use auto_core::Auto;
use auto_merged_product::{Factors, PairRows};
use auto_walk::Grown;
use diagram_product::Absorbing;
use limits::{Budget, MOST_TRACKS};
use std::alloc::Global;

/// Returns the product of any two automata, minimal or not, with equivalent states merged as `merge` does: the
/// automaton over the tracks of both that accepts by the connective, each operand reading its own tracks.
/// Pairs of states with one flag whose rows lead to the same states are one state. If the budget has room for all pairs of states,
/// the pairs in which one operand decides alone are one state before that. Costs the pairs of nodes that are visited over all rows,
/// and a minimization if there are cycles through several pairs.
/// Errors: `Over` if words reach more pairs than the budget. Only for minimal operands does this mean that the step needs more
/// states than the budget.
pub fn merged_product_within(
    alloc: Global,
    a: &Auto,
    b: &Auto,
    connective: Connective,
    budget: Budget,
) -> Result<Auto, Grown>
    requires tracks { length (with_vars a.now.tracks b.now.tracks) ≤ MOST_TRACKS }
    ensures tracks { IfOk result (λ m. m.tracks ≡ with_vars a.now.tracks b.now.tracks) }
    ensures words { IfOk result (AcceptsBy connective a.now b.now) }
    ensures reached { IfOk result AllReached }
    ensures few { IfOk result (λ m. length m.accept ≤ budget) }
    ensures within { OnOk result (¬ StepExceeds a.now b.now budget) }
    ensures over { IsReduced a.now → IsReduced b.now → result ≡ Err Grown.Over → StepExceeds a.now b.now budget }
    ensures many { result ≡ Err Grown.Over → MoreThan (both_walker a.now b.now connective) budget }
{
    if pairs_fit(a, b, budget) {
        match absorbed_product(alloc, a, b, connective, budget) {
            Ok(m) => return Ok(m),
            Err(Grown::Memory) => return Err(Grown::Memory),
            Err(Grown::Over) => {}
        }
    }
    let m = exact_product(alloc, a, b, connective, budget)?;
    Ok(m)
}

/// Returns the product with one pair for all pairs in which one operand decides alone. The number of pairs that words reach is
/// unknown.
fn absorbed_product(
    alloc: Global,
    a: &Auto,
    b: &Auto,
    connective: Connective,
    budget: Budget,
) -> Result<Auto, Grown>
    requires tracks { length (with_vars a.now.tracks b.now.tracks) ≤ MOST_TRACKS }
    ensures ok { IfOk result (IsProduct a.now b.now connective) }
    ensures few { IfOk result (λ m. length m.accept ≤ budget) }
{
    let factors = Factors {
        left: a,
        right: b,
        connective,
    };
    let rows = PairRows::new(alloc, factors, deciding_states(a, b, connective), budget)?;
    let m = merge_rows(alloc, &rows)?;
    Ok(m)
}

/// Returns the product over each pair of states that words reach.
fn exact_product(
    alloc: Global,
    a: &Auto,
    b: &Auto,
    connective: Connective,
    budget: Budget,
) -> Result<Auto, Grown>
    requires tracks { length (with_vars a.now.tracks b.now.tracks) ≤ MOST_TRACKS }
    ensures ok { IfOk result (IsProduct a.now b.now connective) }
    ensures few { IfOk result (λ m. length m.accept ≤ budget) }
    ensures within { OnOk result (¬ StepExceeds a.now b.now budget) }
    ensures over { IsReduced a.now → IsReduced b.now → result ≡ Err Grown.Over → StepExceeds a.now b.now budget }
    ensures many { result ≡ Err Grown.Over → MoreThan (both_walker a.now b.now connective) budget }
{
    let factors = Factors {
        left: a,
        right: b,
        connective,
    };
    let rows = PairRows::new(alloc, factors, Absorbing::nothing(), budget)?;
    merge_rows(alloc, &rows)
}
