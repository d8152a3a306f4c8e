//! Automata whose tracks take their bits from other variables.
ghost use Rattle.std.specs.Prelude.{◌≡◌, ◌≢◌, ◌≤◌, ◌<◌, [], length, All, AllPairs, IfOk};
ghost use Rattle.track_word.specs.Tracks.{with_vars, IsAscending};
ghost use Rattle.auto_core.specs.Automaton.{IsAutomaton};
ghost use Rattle.auto_core.specs.Integers.{DecidesIntegers};
ghost use Rattle.auto_core.specs.Reduced.{AllReached, IsReduced};
ghost use Rattle.auto_core.specs.Rows.{IsOverNodes, AreReadAt};
ghost use Rattle.auto_core.specs.Words.{AcceptsReadAt, AcceptsRenamed};

use crate::auto::Auto;
use letter_diagram::{Diagrams, Node};
use limits::MOST_TRACKS;
use std::alloc::{AllocError, Global};
use track_word::{Var, insert_tracks, places_of};

impl Auto {
    /// Returns the automaton over the variables `vars` that accepts a word if and only if this one accepts the word it reads: its
    /// t-th track takes its bit from `vars[t]`.
    /// Two tracks may take the same variable. If the variables are distinct, the result is minimal if this automaton is. Errors: an
    /// allocation failed.
    pub fn rename(&self, alloc: Global, vars: &[Var]) -> Result<Auto, AllocError>
        requires { length vars.now ≡ length self.now.tracks }
        ensures tracks { IfOk result (λ r. r.tracks ≡ with_vars vars.now []) }
        ensures words { IfOk result (AcceptsRenamed self.now vars.now) }
        ensures accept { IfOk result (λ r. r.accept ≡ self.now.accept) }
        ensures integers { DecidesIntegers self.now → IfOk result (λ r. DecidesIntegers r) }
        ensures reached { AllReached self.now → AllPairs (λ x y. x ≢ y) vars.now → IfOk result (λ r. AllReached r) }
        ensures reduced { IsReduced self.now → AllPairs (λ x y. x ≢ y) vars.now → IfOk result (λ r. IsReduced r) }
        ensures valid { IfOk result (λ r. IsAutomaton r) }
    {
        let _ = self.tracks(); // for its invariant
        let mut tracks = Vec::new(alloc);
        insert_tracks(&mut tracks, vars)?;
        let places = places_of(alloc, tracks.as_slice(), vars)?;
        let renamed = self.over_tracks(alloc, tracks, places.as_slice())?;
        Ok(renamed)
    }

    /// Returns the nodes of the first row and of the states' rows, which read the bits of a letter at `places`, and their diagrams.
    fn nodes_over(&self, alloc: Global, places: &[u8]) -> Result<(Diagrams, Vec<Node>), AllocError>
        requires count { length places.now ≡ length self.now.tracks }
        requires places { All (λ place. place < MOST_TRACKS) places.now }
        ensures over { IsOverNodes self.now }
        ensures brought { IfOk result (λ made. AreReadAt self.now places.now made.0 made.1.items) }
    {
        let nodes = self.all_nodes(alloc)?;
        let mut diagrams = Diagrams::with_capacity(alloc, self.diagrams().len())?;
        let rows = diagrams.bring_relabelled(self.diagrams(), nodes.as_slice(), places)?;
        Ok((diagrams, rows))
    }

    /// Returns the automaton over `tracks`, whose letters this one reads by the bits at `places`.
    fn over_tracks(
        &self,
        alloc: Global,
        tracks: Vec<Var>,
        places: &[u8],
    ) -> Result<Auto, AllocError>
        requires ascending { IsAscending tracks.items }
        requires few { length tracks.items ≤ MOST_TRACKS }
        requires count { length places.now ≡ length self.now.tracks }
        requires places { All (λ place. place < length tracks.items) places.now }
        ensures tracks { IfOk result (λ r. r.tracks ≡ tracks.items) }
        ensures words { IfOk result (AcceptsReadAt self.now tracks.items places.now) }
        ensures accept { IfOk result (λ r. r.accept ≡ self.now.accept) }
        ensures integers { DecidesIntegers self.now → IfOk result (λ r. DecidesIntegers r) }
        ensures reached { AllReached self.now → AllPairs (λ x y. x ≢ y) places.now → IfOk result (λ r. AllReached r) }
        ensures reduced { IsReduced self.now → AllPairs (λ x y. x ≢ y) places.now → IfOk result (λ r. IsReduced r) }
        ensures valid { IfOk result (λ r. IsAutomaton r) }
    {
        let _ = self.tracks(); // for its invariant
        let (diagrams, mut rows) = self.nodes_over(alloc, places)?;
        let first = rows.remove(0);
        let accept = self.flags().to_vec(alloc)?;
        let renamed = Auto::from_diagrams(tracks, diagrams, first, rows, accept);
        let _ = renamed.diagrams(); // for its invariant
        Ok(renamed)
    }
}
