//! Automata with fewer states.
ghost use Rattle.std.specs.Prelude.{ℕ, IfOk};
ghost use Rattle.formula_auto.specs.Compiled.{IsAccessible};
ghost use Rattle.formula_auto.specs.Nodes.{AcceptSame};

use auto_core::Auto;
use auto_minimize::merge;
use std::alloc::{AllocError, Global};

/// Returns the automaton of the same words with states merged in one pass. Errors: an allocation failed.
pub(crate) fn merged(alloc: Global, a: &Auto) -> Result<Auto, AllocError>
    ensures same { IfOk result (AcceptSame a.now) }
    ensures accessible { IfOk result (λ m. (budget : ℕ) → IsAccessible budget a.now → IsAccessible budget m) }
{
    merge(alloc, a)
}
