//! The complement of an automaton.
ghost use Rattle.std.specs.Prelude.{◌≡◌, IfOk, map, not as not_bool};
ghost use Rattle.auto_core.specs.Reduced.{IsReduced};
ghost use Rattle.auto_bool.specs.Words.{AcceptsComplement};

use auto_core::Auto;
use letter_diagram::Node;
use std::alloc::{AllocError, Global};

/// Returns the complement: the automaton of the nonempty words over the same tracks that `a` does not accept. It has the same rows,
/// with each flag negated.
pub fn not(alloc: Global, a: &Auto) -> Result<Auto, AllocError>
    ensures tracks { IfOk result (λ n. n.tracks ≡ a.now.tracks) }
    ensures first { IfOk result (λ n. n.first ≡ a.now.first) }
    ensures next { IfOk result (λ n. n.next ≡ a.now.next) }
    ensures accept { IfOk result (λ n. n.accept ≡ map not_bool a.now.accept) }
    ensures words { IfOk result (AcceptsComplement a.now) }
    ensures reduced { IfOk result (λ n. IsReduced a.now → IsReduced n) }
{
    let tracks = a.tracks().to_vec(alloc)?;
    let rows = row_nodes(alloc, a)?;
    let accept = turned_flags(alloc, a)?;
    let diagrams = a.diagrams().copy()?;
    Ok(Auto::from_diagrams(tracks, diagrams, a.first_node(), rows, accept))
}

fn row_nodes(alloc: Global, a: &Auto) -> Result<Vec<Node>, AllocError>
    ensures { IfOk result (λ rows. rows.items ≡ a.now.row_nodes) }
{
    let _ = a.diagrams(); // for its invariant
    let mut rows = Vec::new(alloc);
    for state in 0..a.states() {
        rows.push(a.row_node(state))?;
    }
    Ok(rows)
}

fn turned_flags(alloc: Global, a: &Auto) -> Result<Vec<bool>, AllocError>
    ensures { IfOk result (λ flags. flags.items ≡ map not_bool a.now.accept) }
{
    let mut flags = Vec::new(alloc);
    for flag in a.flags() {
        flags.push(!*flag)?;
    }
    Ok(flags)
}
