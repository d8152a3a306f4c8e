//! A cache by node number.
ghost use Rattle.std.specs.Prelude.{◌≡◌, ◌≤◌, ℕ, length, IfOk, OnOk};
ghost use Rattle.letter_diagram.specs.NodeMemo.{answer_of, Forgets, Remembers};

use crate::diagrams::Node;
use crate::memo::NodeCache;
use std::alloc::{AllocError, Global};
use std::marker::Model;

/// A cache from nodes of one `Diagrams` to nodes, as a list indexed by node number.
#[derive(Drop)]
pub struct NodeMemo {
    answers: Vec<Option<Node>>,
}

impl Model for NodeMemo {
    ghost use Rattle.std.specs.Prelude.{List, Option, ℕ};

    ghost Value = { List (Option ℕ) };

    ghost view = { λ m. m.answers.items };
}

impl NodeMemo {
    /// Returns an empty cache with room for the nodes below `nodes`.
    pub fn new(alloc: Global, nodes: usize) -> Result<Self, AllocError>
        ensures none { IfOk result (λ memo. (node : ℕ) → answer_of memo node ≡ None) }
        ensures len { IfOk result (λ memo. length memo ≡ nodes) }
    {
        Ok(NodeMemo {
            answers: vec![in alloc; None; nodes]?,
        })
    }

    /// Grows the cache to have room for the nodes below `nodes`.
    pub fn make_room(&mut self, nodes: usize) -> Result<(), AllocError>
        ensures same { (node : ℕ) → answer_of self.new node ≡ answer_of self.old node }
        ensures room { OnOk result (nodes ≤ length self.new) }
        ensures kept { length self.old ≤ length self.new }
    {
        if nodes > self.answers.len() {
            self.answers.resize(nodes, None)?;
        }
        Ok(())
    }

    /// Returns the stored result for a node, if there is one.
    pub fn get(&self, node: Node) -> Option<Node>
        ensures { result ≡ answer_of self.now node }
    {
        self.answers.get(node.number()).copied().flatten()
    }

    /// Stores a result for a node, or drops it if the node is at or above the capacity.
    pub fn insert(&mut self, node: Node, answer: Node)
        ensures { Remembers self.old self.new node answer }
    {
        if let Some(place) = self.answers.get_mut(node.number()) {
            *place = Some(answer);
        }
    }

    /// Removes the result for a node.
    pub fn remove(&mut self, node: Node)
        ensures { Forgets self.old self.new node }
    {
        if let Some(place) = self.answers.get_mut(node.number()) {
            *place = None;
        }
    }
}

/// A cache for most nodes of a table.
impl NodeCache for NodeMemo {
    ghost answers = { answer_of };

    fn answer(&self, node: Node) -> Option<Node> {
        self.get(node)
    }

    fn remember(&mut self, node: Node, made: Node) -> Result<(), AllocError> {
        self.insert(node, made);
        Ok(())
    }
}
