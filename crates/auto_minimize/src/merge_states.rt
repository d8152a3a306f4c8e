//! Fewer states of one automaton.
ghost use Rattle.std.specs.Prelude.{◌≡◌, ◌≤◌, length, IfOk};
ghost use Rattle.auto_core.specs.Automaton.{IsAutomaton};
ghost use Rattle.auto_core.specs.Reduced.{AllReached};
ghost use Rattle.auto_core.specs.Words.{HasSameWords};

use crate::settling::merge_rows;
use auto_core::Auto;
use auto_merge::AutomatonRows;
use auto_walk::Grown;
use std::alloc::{AllocError, Global};

/// Returns an automaton of the same words with at most as many states. States with one flag whose rows lead to the same states, or
/// each to itself where the other leads to itself, are merged. Unreachable states are not visited.
/// If a path through other states leads back to a state, the result is minimized. Costs the nodes of the rows, a second time those
/// that lead to their own state, and the minimization. Errors: an allocation failed.
pub fn merge(alloc: Global, a: &Auto) -> Result<Auto, AllocError>
    ensures tracks { IfOk result (λ m. m.tracks ≡ a.now.tracks) }
    ensures words { IfOk result (HasSameWords a.now) }
    ensures fewer { IfOk result (λ m. length m.accept ≤ length a.now.accept) }
    ensures reached { IfOk result (λ m. AllReached a.now → AllReached m) }
    ensures valid { IfOk result IsAutomaton }
{
    let _ = a.states(); // for its invariant
    match merge_rows(alloc, &AutomatonRows { a }) {
        Ok(m) => {
            let _ = m.states(); // for its invariant
            Ok(m)
        }
        Err(Grown::Over) => unreachable!(),
        Err(Grown::Memory) => Err(AllocError),
    }
}
