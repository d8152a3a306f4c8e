//! The walk over the sets of states that lifts of words reach.
ghost use Rattle.std.specs.Prelude.{◌≡◌, map, slice_index, ◌≢◌, AllPairs, ◌<◌, [], length, slice_get, Some, All, IfOk, OnOk, slice_index_or, false};
ghost use Rattle.std.specs.List.{list_any};
ghost use Rattle.std.specs.List.Sorted.{IsStrictlyIncreasing};
ghost use Rattle.track_word.specs.Tracks.{without_var};
ghost use Rattle.letter_diagram.specs.Diagram.{Grows};
ghost use Rattle.letter_diagram.specs.Sets.{SetsKept};
ghost use Rattle.letter_diagram.specs.Merged.{HasSets};
ghost use Rattle.auto_walk.specs.Walker.{AreTracks};
ghost use Rattle.auto_project.specs.SetMaps.{HasClosedRowsIn, HasPlaceRowsIn, IsUnionRowIn};
ghost use Rattle.auto_project.specs.Placed.{AddsPlacesOf, LeadsToPlaces, RemembersRows};

use crate::closure::TrackRows;
use crate::join::united_rows;
use crate::placing::SetNumbering;
use crate::rows::{SetRows, set_rows};
use crate::sets::copied_set;
use auto_core::Auto;
use auto_walk::Walk;
use letter_diagram::{Diagrams, Merger, Node};
use std::alloc::{AllocError, Global};
use track_word::{Var, remove_track};

/// Returns the tracks without one.
fn tracks_without(alloc: Global, tracks: &[Var], var: Var) -> Result<Vec<Var>, AllocError>
    ensures { IfOk result (λ left. left.items ≡ without_var var tracks.now) }
{
    let mut left = tracks.to_vec(alloc)?;
    remove_track(&mut left, var);
    Ok(left)
}

/// The rows of an automaton over the remaining tracks, and the sets numbered as places. One merger unites all rows, so that unions
/// that two places share are computed once.
#[derive(Drop)]
pub struct Subsets<'a> {
    rows: TrackRows<'a>,
    first: Node,
    merger: Merger,
    places: SetNumbering,
    ghost are_tracks: { AreTracks rows.tracks.items },
    ghost are_rows: { HasPlaceRowsIn merger rows first },
    ghost remembered: { RemembersRows merger places },
}

impl<'a> Subsets<'a> {
    /// Creates the walk for the projection of `var`. Errors: an allocation failed.
    pub fn new(alloc: Global, a: &'a Auto, var: Var) -> Result<Self, AllocError>
        ensures automaton { IfOk result (λ subsets. subsets.rows.automaton.now ≡ a.now) }
        ensures tracks { IfOk result (λ subsets. subsets.rows.tracks.items ≡ without_var var a.now.tracks) }
        ensures fresh { IfOk result (λ subsets. subsets.places.sets ≡ []) }
        ensures rows { IfOk result (λ subsets. HasClosedRowsIn subsets.merger subsets.rows subsets.first) }
    {
        let tracks = tracks_without(alloc, a.tracks(), var)?;
        let SetRows {
            mut merger,
            first,
            rows: nodes,
        } = set_rows(alloc, a, var, tracks.as_slice())?;
        let rows = TrackRows {
            automaton: a,
            tracks,
            nodes,
        };
        let first = rows.closed(&mut merger, first)?;
        let _ = merger.sets().len(); // for its invariant
        Ok(Subsets {
            rows,
            first,
            merger,
            places: SetNumbering::new(alloc)?,
        })
    }

    /// Returns the node that maps each letter to the set of the states that follow the states of a set.
    fn union_row(&mut self, set: &[u32]) -> Result<Node, AllocError>
        requires some { set.now ≢ [] }
        requires within { All (λ state. state < length self.old.rows.nodes.items) set.now }
        ensures union { IfOk result (IsUnionRowIn self.new.merger self.old.rows.nodes.items set.now) }
        ensures ascend { IfOk result (λ _. All IsStrictlyIncreasing self.new.merger.sets) }
        ensures grows { Grows self.old.merger.shapes self.new.merger.shapes }
        ensures kept { SetsKept self.old.merger.sets self.new.merger.sets }
        ensures rows { self.new.rows ≡ self.old.rows }
        ensures first { self.new.first ≡ self.old.first }
        ensures places { self.new.places ≡ self.old.places }
    {
        let node = united_rows(&mut self.merger, self.rows.nodes.as_slice(), set)?;
        let _ = self.merger.sets().len(); // for its invariant
        Ok(node)
    }

    /// Returns the node that maps each letter to the place of the set that `node` gives. Numbers new places.
    fn numbered(&mut self, node: Node) -> Result<Node, AllocError>
        requires { HasSets self.old.merger.shapes self.old.merger.sets node }
        ensures placed { IfOk result (LeadsToPlaces self.old.merger self.new.places node) }
        ensures added { OnOk result (AddsPlacesOf self.old.merger self.old.places self.new.places node) }
        ensures different { IfOk result (λ _. AllPairs (λ p q. p ≢ q) self.new.places.sets) }
        ensures grows { Grows self.old.places.rows self.new.places.rows }
        ensures kept { SetsKept self.old.places.sets self.new.places.sets }
        ensures rows { self.new.rows ≡ self.old.rows }
        ensures first { self.new.first ≡ self.old.first }
        ensures merger { self.new.merger ≡ self.old.merger }
    {
        let row = self.places.row(&self.merger, node)?;
        Ok(row)
    }
}

/// Returns whether one of the states accepts.
fn some_final(flags: &[bool], set: &[u32]) -> bool
    requires { All (λ state. state < length flags.now) set.now }
    ensures { result ≡ list_any (λ state. slice_index_or flags.now state false) set.now }
{
    set.iter().any(|state| flags[*state as usize])
}

impl<'a> Walk for Subsets<'a> {
    ghost use Rattle.auto_project.specs.Subsets.{set_walker};

    ghost walker = { λ s. set_walker s.rows.automaton.now s.rows.tracks.items s.merger.shapes s.merger.sets s.first };

    ghost places = { λ s. s.places.sets };

    ghost shapes = { λ s. s.places.rows };

    fn tracks(&self) -> &[Var] {
        self.rows.tracks.as_slice()
    }

    fn count(&self) -> usize {
        self.places.sets.len()
    }

    fn first_row(&mut self) -> Result<Node, AllocError> {
        let node = self.numbered(self.first)?;
        Ok(node)
    }

    fn next_row(&mut self, number: u32) -> Result<Node, AllocError> {
        let set = copied_set(self.merger.diagrams().alloc(), &self.places.sets, number)?;
        let union = self.union_row(set.as_slice())?;
        let node = self.numbered(union)?;
        Ok(node)
    }

    fn is_final(&self, number: u32) -> bool {
        match self.places.sets.get(number) {
            Some(set) => some_final(self.rows.automaton.flags(), set),
            None => false,
        }
    }

    fn into_diagrams(self) -> Diagrams {
        self.places.into_rows()
    }
}
