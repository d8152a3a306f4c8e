//! Closure under sign extension.
ghost use Rattle.std.specs.Prelude.{◌≡◌, ◌↔◌, ◌<◌, length, All, IfOk, IsTrue};
ghost use Rattle.letter_diagram.specs.Diagram.{Grows};
ghost use Rattle.auto_core.specs.Automaton.{IsAutomaton};
ghost use Rattle.auto_core.specs.Integers.{DecidesIntegers};
ghost use Rattle.auto_core.specs.Reduced.{IsReduced};
ghost use Rattle.auto_reduce.specs.Stable.{Keeps};

use crate::quotient::reduce;
use auto_core::Auto;
use diagram_product::{Pairs, apply2};
use letter_diagram::{Diagrams, Node};
use std::alloc::{AllocError, Global};

/// Returns whether the automaton accepts each word if and only if it accepts the word with its first letter repeated, so that it
/// decides a set of integer tuples.
/// Costs a minimization, and the pairs of nodes of the first row and the rows of the states that sign letters reach. Errors: an
/// allocation failed.
pub fn sign_stable(alloc: Global, a: &Auto) -> Result<bool, AllocError>
    ensures { IfOk result (λ stable. IsTrue stable ↔ DecidesIntegers a.now) }
{
    let m = reduce(alloc, a)?;
    let stable = signs_stay(&m)?;
    Ok(stable)
}

/// Returns whether each sign letter of a minimal automaton, repeated, reaches the same state.
fn signs_stay(m: &Auto) -> Result<bool, AllocError>
    requires valid { IsAutomaton m.now }
    requires reduced { IsReduced m.now }
    ensures { IfOk result (λ stay. IsTrue stay ↔ DecidesIntegers m.now) }
{
    let first = m.first_node();
    let mut diagrams = m.diagrams().copy()?;
    let states = diagrams.leaves(first)?;
    for state in states.as_slice() {
        let row = m.row_node(*state);
        if !keeps(&mut diagrams, first, row, *state)? {
            return Ok(false);
        }
    }
    Ok(true)
}

/// Returns whether a row gives a state at each letter at which the first row does.
fn keeps(diagrams: &mut Diagrams, first: Node, row: Node, state: u32) -> Result<bool, AllocError>
    requires first_known { first < length diagrams.old }
    requires row_known { row < length diagrams.old }
    ensures keeps { IfOk result (λ keeps. IsTrue keeps ↔ Keeps diagrams.old first row state) }
    ensures grows { Grows diagrams.old diagrams.new }
{
    let mut pairs = Pairs::new(diagrams.alloc());
    let _ = apply2(diagrams, first, row, &mut pairs)?;
    Ok(each_keeps(pairs.as_slice(), state))
}

/// Returns whether the second entry of each pair is the state if the first one is.
fn each_keeps(pairs: &[(u32, u32)], state: u32) -> bool
    ensures { IsTrue result ↔ All (λ pair. pair.0 ≡ state → pair.1 ≡ state) pairs.now }
{
    for pair in pairs {
        if pair.0 == state && pair.1 != state {
            return false;
        }
    }
    true
}
