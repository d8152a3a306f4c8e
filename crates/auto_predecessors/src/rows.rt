//! The rows of an automaton as a list of nodes.
ghost use Rattle.auto_predecessors.specs.RowNodes.{AreRowNodes};

use auto_core::Auto;
use letter_diagram::Node;

/// Returns the nodes of the rows, in the order of the states.
pub fn row_nodes(a: &Auto) -> &[Node]
    ensures { AreRowNodes a.now result.now }
{
    let _ = a.diagrams(); // for its invariant
    a.row_nodes()
}
