//! Sets numbered as places, and the rows that map to them.
ghost use Rattle.std.specs.Prelude.{◌≡◌, ◌≢◌, ◌<◌, [], ℕ, None, length, AllPairs, IfOk, OnOk};
ghost use Rattle.letter_diagram.specs.Diagram.{Grows, top_track};
ghost use Rattle.letter_diagram.specs.Sets.{SetsKept, set_at};
ghost use Rattle.letter_diagram.specs.Merged.{HasSets};
ghost use Rattle.letter_diagram.specs.NodeMemo.{answer_of};
ghost use Rattle.auto_project.specs.Placed.{AddsOnly, AddsPlacesOf, LeadsToPlaceOf, LeadsToPlaces, RemembersRows};

use crate::sets::number_of;
use letter_diagram::{Diagrams, Merger, Node, NodeMemo, Sets, Shape};
use limits::MOST_TRACKS;
use std::alloc::{AllocError, Global};

/// The subset construction's numbering: sets numbered as places, and nodes that map letters to places. Each node of a merger is
/// converted once; results stay valid while the merger and the numbering grow.
#[derive(Drop)]
pub struct SetNumbering {
    pub sets: Sets,
    pub rows: Diagrams,
    pub placed: NodeMemo,
}

impl SetNumbering {
    /// Returns an empty numbering.
    pub fn new(alloc: Global) -> Result<Self, AllocError>
        ensures fresh { IfOk result (λ places. places.sets ≡ []) }
        ensures none { IfOk result (λ places. (node : ℕ) → answer_of places.placed node ≡ None) }
    {
        Ok(SetNumbering {
            sets: Sets::new(alloc),
            rows: Diagrams::new(alloc),
            placed: NodeMemo::new(alloc, 0)?,
        })
    }

    /// Returns the diagrams whose nodes are the rows.
    pub fn into_rows(self) -> Diagrams
        ensures { result ≡ self.rows }
    {
        self.rows
    }

    /// Returns the node that maps each letter to the place of one numbered set.
    fn leaf(&mut self, sets: &Sets, number: u32) -> Result<Node, AllocError>
        requires { number < length sets.now }
        ensures known { IfOk result (λ row. row < length self.new.rows) }
        ensures leads { IfOk result (LeadsToPlaceOf self.new (set_at sets.now number)) }
        ensures top { IfOk result (λ row. top_track self.new.rows row ≡ MOST_TRACKS) }
        ensures added { OnOk result (AddsOnly self.old self.new (set_at sets.now number)) }
        ensures grows { Grows self.old.rows self.new.rows }
        ensures kept { SetsKept self.old.sets self.new.sets }
        ensures placed { self.new.placed ≡ self.old.placed }
    {
        let _ = sets.len(); // for its invariant
        match sets.get(number) {
            Some(set) => {
                let place = number_of(&mut self.sets, set)?;
                let row = self.rows.leaf(place)?;
                Ok(row)
            }
            None => unreachable!(),
        }
    }

    /// Computes `row` if the cache has room for the node.
    fn led(&mut self, merger: &Merger, node: Node) -> Result<Node, AllocError>
        requires node { HasSets merger.now.shapes merger.now.sets node }
        requires remembered { RemembersRows merger.now self.old }
        ensures placed { IfOk result (LeadsToPlaces merger.now self.new node) }
        ensures added { OnOk result (AddsPlacesOf merger.now self.old self.new node) }
        ensures remembered { RemembersRows merger.now self.new }
        ensures grows { Grows self.old.rows self.new.rows }
        ensures kept { SetsKept self.old.sets self.new.sets }
    {
        if let Some(known) = self.placed.get(node) {
            return Ok(known);
        }
        let row = match merger.diagrams().shape(node) {
            Shape::Leaf(number) => self.leaf(merger.sets(), number)?,
            Shape::Test { track, low, high } => {
                let low = self.led(merger, low)?;
                let high = self.led(merger, high)?;
                self.rows.node(track, low, high)?
            }
        };
        self.placed.insert(node, row);
        Ok(row)
    }

    /// Returns the node that maps each letter to the place of the set that `node` gives. Numbers new places. Nodes that were
    /// converted before are not visited again. Errors: an allocation failed.
    pub fn row(&mut self, merger: &Merger, node: Node) -> Result<Node, AllocError>
        requires node { HasSets merger.now.shapes merger.now.sets node }
        requires remembered { RemembersRows merger.now self.old }
        ensures placed { IfOk result (LeadsToPlaces merger.now self.new node) }
        ensures added { OnOk result (AddsPlacesOf merger.now self.old self.new node) }
        ensures different { IfOk result (λ _. AllPairs (λ p q. p ≢ q) self.new.sets) }
        ensures remembered { RemembersRows merger.now self.new }
        ensures grows { Grows self.old.rows self.new.rows }
        ensures kept { SetsKept self.old.sets self.new.sets }
    {
        self.placed.make_room(merger.diagrams().len())?;
        let row = self.led(merger, node)?;
        let _ = self.sets.len(); // for its invariant
        Ok(row)
    }
}
