//! Automata whose rows are plain lists.

ghost use Rattle.std.specs.Prelude.{◌≡◌, length, IfOk};
ghost use Rattle.auto_core.specs.Automaton.{IsAutomaton};
ghost use Rattle.auto_core.specs.Rows.{AreTables};

use auto_core::Auto;
use std::alloc::{AllocError, Global};
use std::marker::Model;
use track_word::Var;

/// A complete DFA whose tables are stored in memory as in a file. An entry takes four bytes, so the automaton is about
/// as large as its bytes in the file.
#[derive(Drop)]
pub struct DenseAuto {
    tracks: Vec<Var>,
    first: Vec<u32>,
    next: Vec<u32>,
    accept: Vec<bool>,
}

impl Model for DenseAuto {
    ghost use Rattle.auto_core.specs.Automaton.{Automaton};
    ghost use Rattle.auto_core.specs.Rows.{AreTables};
    ghost use Rattle.strategy_file.specs.Tables.{automaton_of};

    ghost Value = { Automaton };

    ghost view = { λ d. automaton_of d.tracks.items d.first.items d.next.items d.accept.items };

    ghost invariant = { λ d. AreTables d.tracks.items d.first.items d.next.items d.accept.items };
}

impl DenseAuto {
    /// Creates the automaton of these tables. `first` has a state for each sign letter, `next` has the rows of all
    /// states, concatenated, and `accept` a flag for each state.
    pub fn new(tracks: Vec<Var>, first: Vec<u32>, next: Vec<u32>, accept: Vec<bool>) -> DenseAuto
        requires { AreTables tracks.items first.items next.items accept.items }
        ensures tracks { result.tracks ≡ tracks.items }
        ensures first { result.first ≡ first.items }
        ensures next { result.next ≡ next.items }
        ensures accept { result.accept ≡ accept.items }
        ensures valid { IsAutomaton result }
    {
        DenseAuto {
            tracks,
            first,
            next,
            accept,
        }
    }

    /// Returns the number of states.
    pub fn states(&self) -> u32
        ensures { result ≡ length self.now.accept }
    {
        self.accept.len() as u32
    }

    /// Like `into_auto`, but keeps the tables.
    pub fn to_auto(&self, alloc: Global) -> Result<Auto, AllocError>
        ensures tracks { IfOk result (λ a. a.tracks ≡ self.now.tracks) }
        ensures first { IfOk result (λ a. a.first ≡ self.now.first) }
        ensures next { IfOk result (λ a. a.next ≡ self.now.next) }
        ensures accept { IfOk result (λ a. a.accept ≡ self.now.accept) }
        ensures valid { IfOk result (λ a. IsAutomaton a) }
    {
        let tracks = self.tracks.as_slice().to_vec(alloc)?;
        let first = self.first.as_slice().to_vec(alloc)?;
        let next = self.next.as_slice().to_vec(alloc)?;
        let accept = self.accept.as_slice().to_vec(alloc)?;
        Auto::from_rows(alloc, tracks, first, next, accept)
    }

    /// Converts to an automaton with the same tables, whose diagrams share nodes.
    pub fn into_auto(self, alloc: Global) -> Result<Auto, AllocError>
        ensures tracks { IfOk result (λ a. a.tracks ≡ self.tracks) }
        ensures first { IfOk result (λ a. a.first ≡ self.first) }
        ensures next { IfOk result (λ a. a.next ≡ self.next) }
        ensures accept { IfOk result (λ a. a.accept ≡ self.accept) }
        ensures valid { IfOk result (λ a. IsAutomaton a) }
    {
        Auto::from_rows(alloc, self.tracks, self.first, self.next, self.accept)
    }
}
