//! Tables with many nodes that no row reaches.
ghost use Rattle.std.specs.Prelude.{◌≡◌, ◌≢◌, ◌<◌, [], length, AllPairs, IfOk};
ghost use Rattle.track_word.specs.Tracks.{with_vars};
ghost use Rattle.auto_core.specs.Automaton.{IsAutomaton};
ghost use Rattle.auto_core.specs.Reduced.{AllReached, IsReduced};
ghost use Rattle.auto_core.specs.Integers.{DecidesIntegers};
ghost use Rattle.auto_core.specs.Words.{HasSameWords, AcceptsRenamed};
ghost use Rattle.auto_compact.specs.Compacted.{HasSameTables};

use auto_core::Auto;
use letter_diagram::{Diagrams, Node, Shape};
use std::alloc::{AllocError, Global};
use track_word::Var;

/// A table is rebuilt if it has at least this many times the reachable nodes.
const TIMES: usize = 3;

/// Marks the nodes reachable from a node, and decrements `left` for each new mark. Stops at 0.
fn mark(diagrams: &Diagrams, node: Node, marks: &mut Vec<bool>, left: &mut usize)
    requires known { node < length diagrams.now }
    requires size { length marks.old.items ≡ length diagrams.now }
    ensures { length marks.new.items ≡ length marks.old.items }
{
    let place = node.number();
    if *left == 0 || marks[place] {
        return;
    }
    marks[place] = true;
    *left -= 1;
    if let Shape::Test { low, high, .. } = diagrams.shape(node) {
        mark(diagrams, low, marks, left);
        mark(diagrams, high, marks, left);
    }
}

/// Returns whether the table has at least three times as many nodes as the rows reach. The contracts of automata do not depend on
/// the result. Costs the reachable nodes, and at most a third of the table's.
fn is_sparse(alloc: Global, a: &Auto) -> Result<bool, AllocError> {
    let diagrams = a.diagrams();
    let nodes = diagrams.len();
    let mut left = nodes / TIMES + 1;
    let mut marks = vec![in alloc; false; nodes]?;
    mark(diagrams, a.first_node(), &mut marks, &mut left);
    for state in 0..a.states() {
        if left == 0 {
            return Ok(false);
        }
        mark(diagrams, a.row_node(state), &mut marks, &mut left);
    }
    Ok(left > 0)
}

/// Returns the same automaton over a table of the nodes that its rows reach.
fn over_led_nodes(alloc: Global, a: &Auto) -> Result<Auto, AllocError>
    ensures { IfOk result (HasSameTables a.now) }
{
    let nodes = a.all_nodes(alloc)?;
    let mut diagrams = Diagrams::new(alloc);
    let mut rows = diagrams.bring(a.diagrams(), nodes.as_slice())?;
    let first = rows.remove(0);
    let tracks = a.tracks().to_vec(alloc)?;
    let accept = a.flags().to_vec(alloc)?;
    Ok(Auto::from_diagrams(tracks, diagrams, first, rows, accept))
}

/// Returns the same automaton, garbage collected: if its table has at least three times as many nodes as its rows reach, the new
/// table has only the reachable nodes. Errors: an allocation failed.
pub fn compact(alloc: Global, a: Auto) -> Result<Auto, AllocError>
    ensures tracks { IfOk result (λ made. made.tracks ≡ a.tracks) }
    ensures first { IfOk result (λ made. made.first ≡ a.first) }
    ensures next { IfOk result (λ made. made.next ≡ a.next) }
    ensures accept { IfOk result (λ made. made.accept ≡ a.accept) }
    ensures words { IfOk result (HasSameWords a) }
    ensures integers { DecidesIntegers a → IfOk result DecidesIntegers }
    ensures reached { AllReached a → IfOk result AllReached }
    ensures reduced { IsReduced a → IfOk result IsReduced }
    ensures valid { IfOk result IsAutomaton }
{
    let _ = a.tracks(); // for its invariant
    if !is_sparse(alloc, &a)? {
        return Ok(a);
    }
    let compacted = over_led_nodes(alloc, &a)?;
    let _ = compacted.tracks(); // for its invariant
    Ok(compacted)
}

/// Renames as `Auto::rename` does, and compacts the result: a reordering of tracks leaves unused nodes. Errors: an allocation
/// failed.
pub fn renamed(alloc: Global, a: &Auto, vars: &[Var]) -> Result<Auto, AllocError>
    requires { length vars.now ≡ length a.now.tracks }
    ensures tracks { IfOk result (λ made. made.tracks ≡ with_vars vars.now []) }
    ensures words { IfOk result (AcceptsRenamed a.now vars.now) }
    ensures accept { IfOk result (λ made. made.accept ≡ a.now.accept) }
    ensures integers { DecidesIntegers a.now → IfOk result DecidesIntegers }
    ensures reached { AllReached a.now → AllPairs (λ x y. x ≢ y) vars.now → IfOk result AllReached }
    ensures reduced { IsReduced a.now → AllPairs (λ x y. x ≢ y) vars.now → IfOk result IsReduced }
    ensures valid { IfOk result IsAutomaton }
{
    let made = a.rename(alloc, vars)?;
    let compacted = compact(alloc, made)?;
    Ok(compacted)
}
