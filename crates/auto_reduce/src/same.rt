//! Equality of the accepted words.
ghost use Rattle.std.specs.Prelude.{◌≡◌, ◌↔◌, ◌<◌, length, All, IfOk, IsTrue};
ghost use Rattle.auto_core.specs.Automaton.{IsAutomaton};
ghost use Rattle.auto_reduce.specs.Tables.{AcceptSameWords, HaveEqualTables, HaveEqualMaps};

use crate::quotient::reduce;
use auto_core::Auto;
use letter_diagram::{Diagrams, Node};
use std::alloc::{AllocError, Global};

/// Returns whether two automata over the same tracks accept the same words. Minimizes both: minimal automata of the same words have
/// equal tables. Errors: an allocation failed.
pub fn same_set(alloc: Global, a: &Auto, b: &Auto) -> Result<bool, AllocError>
    requires { a.now.tracks ≡ b.now.tracks }
    ensures { IfOk result (λ same. IsTrue same ↔ AcceptSameWords a.now b.now) }
{
    let a = reduce(alloc, a)?;
    let b = reduce(alloc, b)?;
    let same = have_equal_tables(alloc, &a, &b)?;
    Ok(same)
}

/// Returns whether the tables of two automata are equal. Equal rows are equal nodes of one `Diagrams`.
fn have_equal_tables(alloc: Global, a: &Auto, b: &Auto) -> Result<bool, AllocError>
    requires a_valid { IsAutomaton a.now }
    requires b_valid { IsAutomaton b.now }
    requires tracks { a.now.tracks ≡ b.now.tracks }
    ensures { IfOk result (λ equal. IsTrue equal ↔ HaveEqualTables a.now b.now) }
{
    if a.flags() != b.flags() {
        return Ok(false);
    }
    let mut diagrams = a.diagrams().copy()?;
    let nodes = a.all_nodes(alloc)?;
    let others = b.all_nodes(alloc)?;
    let brought = diagrams.bring(b.diagrams(), others.as_slice())?;
    Ok(have_equal_maps(&diagrams, nodes.as_slice(), brought.as_slice()))
}

fn have_equal_maps(diagrams: &Diagrams, nodes: &[Node], others: &[Node]) -> bool
    requires nodes_known { All (λ node. node < length diagrams.now) nodes.now }
    requires others_known { All (λ node. node < length diagrams.now) others.now }
    requires size { length nodes.now ≡ length others.now }
    ensures { IsTrue result ↔ HaveEqualMaps diagrams.now nodes.now others.now }
{
    for place in 0..nodes.len() {
        if !diagrams.same_map(nodes[place], others[place]) {
            return false;
        }
    }
    true
}
