//! States in the order of discovery.
ghost use Rattle.std.specs.Prelude.{◌≡◌, ◌≢◌, [], ◌∷◌, ◌↔◌, List, ℕ, OnOk, AllPairs, Contains, IsTrue};
ghost use Rattle.auto_reduce.specs.Quotient.{AddsAll};

use indexmap::IndexSet;
use std::alloc::{AllocError, Global};
use std::marker::Model;

/// Distinct states, in the order in which they were added.
#[derive(Drop)]
pub struct StateOrder {
    seen: IndexSet<u32>,
}

impl Model for StateOrder {
    ghost Value = { List ℕ };

    ghost view = { λ o. o.seen.keys };

    ghost invariant = { λ o. AllPairs (λ x y. x ≢ y) o.seen.keys };
}

impl StateOrder {
    /// Returns an empty order.
    pub fn new(alloc: Global) -> Self
        ensures { result ≡ [] }
    {
        StateOrder {
            seen: IndexSet::new(alloc),
        }
    }

    /// Returns the states in order.
    pub fn as_slice(&self) -> &[u32]
        ensures states { result.now ≡ self.now }
        ensures different { AllPairs (λ x y. x ≢ y) self.now }
    {
        self.seen.as_slice()
    }

    /// Returns whether a state was added.
    pub fn has(&self, state: u32) -> bool
        ensures { IsTrue result ↔ Contains self.now state }
    {
        self.seen.contains(&state)
    }

    /// Appends a state, unless it was added before.
    pub fn add(&mut self, state: u32) -> Result<(), AllocError>
        ensures adds { OnOk result (AddsAll self.old self.new (state ∷ [])) }
        ensures different { AllPairs (λ x y. x ≢ y) self.new }
    {
        let _ = self.seen.insert_full(state)?;
        Ok(())
    }

    /// Appends states, each unless it was added before.
    pub fn add_all(&mut self, states: &[u32]) -> Result<(), AllocError>
        ensures adds { OnOk result (AddsAll self.old self.new states.now) }
        ensures different { AllPairs (λ x y. x ≢ y) self.new }
    {
        let _ = &self.seen; // for its invariant
        for state in states {
            self.add(*state)?;
        }
        Ok(())
    }
}
