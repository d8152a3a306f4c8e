//! A cache by node that is cleared after each round of a refinement, or each row of a numbering.
ghost use Rattle.std.specs.Prelude.{◌≡◌, ℕ, None, IfOk};
ghost use Rattle.letter_diagram.specs.NodeMemo.{answer_of};

use letter_diagram::{Node, NodeCache, NodeMemo};
use std::alloc::{AllocError, Global};
use std::marker::Model;

/// A cache from nodes of one `Diagrams` to nodes, as a list indexed by node number. The nodes with an entry are listed, so that
/// clearing costs the number of entries.
pub struct RoundMemo {
    answers: NodeMemo,
    answered: Vec<Node>,
}

impl Drop for RoundMemo {
    /// Drops the entries. Written by hand, so that a function that drops a cache calls this instead of dropping each field.
    fn drop(self) {
        let RoundMemo {
            answers: _,
            answered: _,
        } = self;
    }
}

impl Model for RoundMemo {
    ghost use Rattle.std.specs.Prelude.{List, Option, ℕ};
    ghost use Rattle.auto_refine.specs.RoundMemo.{AreAnswered};

    ghost Value = { List (Option ℕ) };

    ghost view = { λ m. m.answers };

    ghost invariant = { λ m. AreAnswered m.answers m.answered.items };
}

impl RoundMemo {
    /// Returns an empty cache with room for the nodes below `nodes`.
    pub fn new(alloc: Global, nodes: usize) -> Result<Self, AllocError>
        ensures none { IfOk result (λ memo. (node : ℕ) → answer_of memo node ≡ None) }
    {
        Ok(RoundMemo {
            answers: NodeMemo::new(alloc, nodes)?,
            answered: Vec::new(alloc),
        })
    }

    /// Removes all entries.
    pub fn clear(&mut self)
        ensures none { (node : ℕ) → answer_of self.new node ≡ None }
    {
        for node in self.answered.as_slice() {
            self.answers.remove(*node);
        }
        self.answered.clear();
    }
}

/// Drops entries for nodes at or above the capacity.
impl NodeCache for RoundMemo {
    ghost answers = { answer_of };

    fn answer(&self, node: Node) -> Option<Node> {
        self.answers.get(node)
    }

    fn remember(&mut self, node: Node, made: Node) -> Result<(), AllocError> {
        self.answered.push(node)?;
        self.answers.insert(node, made);
        Ok(())
    }
}
