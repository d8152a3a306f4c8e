//! The automaton that accepts no word.
ghost use Rattle.std.specs.Prelude.{IfOk};
ghost use Rattle.auto_bool.specs.Operands.{IsNoneOf};

use auto_core::Auto;
use letter_diagram::Diagrams;
use std::alloc::{AllocError, Global};

/// Returns the automaton over the tracks of `a` that accepts no word. It has one state.
pub fn none_of(alloc: Global, a: &Auto) -> Result<Auto, AllocError>
    ensures { IfOk result (IsNoneOf a.now) }
{
    let tracks = a.tracks().to_vec(alloc)?;
    let mut diagrams = Diagrams::new(alloc);
    let node = diagrams.leaf(0)?;
    let rows = vec![in alloc; node]?;
    let accept = vec![in alloc; false]?;
    Ok(Auto::from_diagrams(tracks, diagrams, node, rows, accept))
}
