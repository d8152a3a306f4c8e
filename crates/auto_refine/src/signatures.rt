//! Signatures of states, numbered in the order of their first occurrence.
ghost use Rattle.std.specs.Prelude.{◌≡◌, ◌≢◌, ◌≤◌, ◌<◌, ◌^◌, ◌+◌, ◌-◌, [], List, ℕ, length, slice_get, Some, IfOk, OnOk, AllPairs};
ghost use Rattle.letter_diagram.specs.Numbering.{Numbers, PairsKept};

use indexmap::IndexSet;
use letter_diagram::Node;
use std::alloc::{AllocError, Global};
use std::marker::Model;

/// Signatures: the class of a state, and the node that maps letters to the classes of its next states.
#[derive(Drop)]
pub struct Signatures {
    seen: IndexSet<(u32, Node)>,
}

impl Model for Signatures {
    ghost Value = { List (ℕ × ℕ) };

    ghost view = { λ s. s.seen.keys };

    ghost invariant = { λ s. AllPairs (λ x y. x ≢ y) s.seen.keys };
}

impl Signatures {
    /// Returns an empty numbering.
    pub fn new(alloc: Global) -> Self
        ensures { result ≡ [] }
    {
        Signatures {
            seen: IndexSet::new(alloc),
        }
    }

    /// Returns the number of signatures.
    pub fn len(&self) -> usize
        ensures len { result ≡ length self.now }
        ensures unrepeated { AllPairs (λ x y. x ≢ y) self.now }
    {
        self.seen.len()
    }

    /// Returns the number of a signature, and adds it if it is new; a number is known to be free.
    pub fn add(&mut self, class: u32, node: Node) -> Result<u32, AllocError>
        requires { length self.old < 2 ^ 32 - 1 }
        ensures number { IfOk result (λ number. slice_get self.new number ≡ Some (class, node)) }
        ensures signatures { OnOk result (Numbers self.old self.new (class, node)) }
        ensures kept { PairsKept self.old self.new }
        ensures room { length self.new ≤ length self.old + 1 }
    {
        let (number, _) = self.seen.insert_full((class, node))?;
        Ok(number as u32)
    }
}
