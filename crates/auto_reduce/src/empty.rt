//! Emptiness of an automaton.
ghost use Rattle.std.specs.Prelude.{◌↔◌, IsTrue};
ghost use Rattle.auto_core.specs.Reduced.{AllReached};
ghost use Rattle.auto_reduce.specs.Tables.{AcceptsNoWord};

use auto_core::Auto;

/// Returns whether an automaton, each of whose states is reached, accepts no word: no flag is set. Costs the number of states.
pub fn is_empty(a: &Auto) -> bool
    requires { AllReached a.now }
    ensures { IsTrue result ↔ AcceptsNoWord a.now }
{
    let _ = a.states(); // for its invariant
    for flag in a.flags() {
        if *flag {
            return false;
        }
    }
    true
}
