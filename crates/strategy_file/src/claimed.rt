//! Automata as they are stored in a file.

ghost use Rattle.std.specs.Prelude.{◌≡◌, length, IfOk};
ghost use Rattle.auto_core.specs.Automaton.{IsAutomaton};
ghost use Rattle.strategy_file.specs.ClaimedAutos.{automaton_in};

use crate::dense::DenseAuto;
use crate::shared::SharedAuto;
use auto_core::Auto;
use std::alloc::{AllocError, Global};

/// An automaton whose rows are stored in memory as in a file of version 1 or 2.
#[derive(Drop)]
pub enum ClaimedAuto {
    Dense(DenseAuto),
    Shared(SharedAuto),
}

impl ClaimedAuto {
    /// Returns the number of states.
    pub fn states(&self) -> u32
        ensures { result ≡ length (automaton_in self.now).accept }
    {
        match self {
            ClaimedAuto::Dense(set) => set.states(),
            ClaimedAuto::Shared(set) => set.states(),
        }
    }

    /// Converts to an automaton with the same rows, whose diagrams share nodes.
    pub fn to_auto(&self, alloc: Global) -> Result<Auto, AllocError>
        ensures tracks { IfOk result (λ a. a.tracks ≡ (automaton_in self.now).tracks) }
        ensures first { IfOk result (λ a. a.first ≡ (automaton_in self.now).first) }
        ensures next { IfOk result (λ a. a.next ≡ (automaton_in self.now).next) }
        ensures accept { IfOk result (λ a. a.accept ≡ (automaton_in self.now).accept) }
        ensures valid { IfOk result (λ a. IsAutomaton a) }
    {
        match self {
            ClaimedAuto::Dense(set) => set.to_auto(alloc),
            ClaimedAuto::Shared(set) => set.to_auto(alloc),
        }
    }

    /// Like `to_auto`, but consumes the table.
    pub fn into_auto(self, alloc: Global) -> Result<Auto, AllocError>
        ensures tracks { IfOk result (λ a. a.tracks ≡ (automaton_in self).tracks) }
        ensures first { IfOk result (λ a. a.first ≡ (automaton_in self).first) }
        ensures next { IfOk result (λ a. a.next ≡ (automaton_in self).next) }
        ensures accept { IfOk result (λ a. a.accept ≡ (automaton_in self).accept) }
        ensures valid { IfOk result (λ a. IsAutomaton a) }
    {
        match self {
            ClaimedAuto::Dense(set) => set.into_auto(alloc),
            ClaimedAuto::Shared(set) => set.to_auto(alloc),
        }
    }
}
