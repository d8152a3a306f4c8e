//! Caches of results per node.
ghost use Rattle.std.specs.Prelude.{◌≡◌, ℕ, Option, OnOk, nat_eq};
ghost use Rattle.std.specs.HashMap.{get};
ghost use Rattle.letter_diagram.specs.Carried.{Learns};

use crate::diagrams::Node;
use std::alloc::AllocError;
use std::collections::HashMap;

/// A cache from nodes to nodes. It may be lossy.
pub trait NodeCache: Drop {
    ghost answers: { Self → ℕ → Option ℕ };

    /// Returns the stored result for a node, if there is one.
    fn answer(&self, node: Node) -> Option<Node>
        ensures { result ≡ answers self.now node };

    /// Stores a result for a node, or drops it.
    fn remember(&mut self, node: Node, made: Node) -> Result<(), AllocError>
        ensures { OnOk result (Learns (answers self.old) (answers self.new) node made) };
}

/// A cache for few of many nodes.
impl NodeCache for HashMap<Node, Node> {
    ghost answers = { λ memo. get nat_eq memo };

    fn answer(&self, node: Node) -> Option<Node> {
        self.get(&node).copied()
    }

    fn remember(&mut self, node: Node, made: Node) -> Result<(), AllocError> {
        self.insert(node, made)?;
        Ok(())
    }
}
