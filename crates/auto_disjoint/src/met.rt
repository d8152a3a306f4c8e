//! Pairs of nodes in the order of discovery.
ghost use Rattle.std.specs.Prelude.{◌≡◌, ◌<◌, ◌^◌, [], List, ℕ, length, slice_get, OnOk};
ghost use Rattle.auto_disjoint.specs.Met.{Adds};

use indexmap::IndexSet;
use letter_diagram::Node;
use std::alloc::{AllocError, Global};
use std::marker::Model;

/// Distinct pairs of nodes in the order of discovery: those already visited, and those still to be visited.
#[derive(Drop)]
pub(crate) struct PairWorklist {
    seen: IndexSet<(Node, Node)>,
}

impl Model for PairWorklist {
    ghost Value = { List (ℕ × ℕ) };

    ghost view = { λ m. m.seen.keys };
}

impl PairWorklist {
    /// Returns an empty worklist.
    pub(crate) fn new(alloc: Global) -> Self
        ensures { result ≡ [] }
    {
        PairWorklist {
            seen: IndexSet::new(alloc),
        }
    }

    /// Returns the pair with a number, if there is one.
    pub(crate) fn get(&self, number: usize) -> Option<(Node, Node)>
        ensures pair { result ≡ slice_get self.now number }
        ensures small { length self.now < 2 ^ 63 }
    {
        let _ = self.seen.len(); // for its bound
        self.seen.get_index(number).copied()
    }

    /// Appends a pair, unless it is in the worklist.
    pub(crate) fn add(&mut self, pair: (Node, Node)) -> Result<(), AllocError>
        ensures { OnOk result (Adds self.old self.new pair) }
    {
        let _ = self.seen.insert_full(pair)?;
        Ok(())
    }
}
