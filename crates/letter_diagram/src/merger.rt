//! Merging and uniting maps over one table of nodes, with caches kept between calls.
ghost use Rattle.std.specs.Prelude.{◌≡◌, ◌<◌, ◌≤◌, ◌+◌, ◌^◌, ℕ, All, length, IfOk, OnOk};
ghost use Rattle.limits.specs.declared.numbers.TheConstants.{MOST_TRACKS};
ghost use Rattle.letter_diagram.specs.Diagram.{map_at, top_track, Grows};
ghost use Rattle.letter_diagram.specs.Sets.{SetsKept};
ghost use Rattle.letter_diagram.specs.Merged.{UnitesBits, HasSets, IsUnited, AreUnions, IgnoresTrack};
ghost use Rattle.letter_diagram.specs.Composed.{IsComposed};
ghost use Rattle.letter_diagram.specs.Merger.{AddsMerged};

use crate::diagrams::{Diagrams, Node};
use crate::pair_memo::PairMemo;
use crate::sets::Sets;
use std::alloc::AllocError;
use std::collections::HashMap;
use std::marker::Model;

/// Diagrams and the sets that their values number, for many calls of `apply` at one track and of `unite`. Results that two calls
/// share are computed once (the computed table of Bryant 1986).
#[derive(Drop)]
pub struct Merger {
    diagrams: Diagrams,
    sets: Sets,
    track: u8,
    merged: HashMap<Node, Node>,
    united: PairMemo,
}

impl Model for Merger {
    ghost use Rattle.limits.specs.declared.numbers.TheConstants.{MOST_TRACKS};
    ghost use Rattle.std.specs.Prelude.{◌<◌};
    ghost use Rattle.letter_diagram.specs.Merger.{MergerTables};
    ghost use Rattle.letter_diagram.specs.Merged.{RemembersUnited, RemembersMerged};

    ghost Value = { MergerTables };

    ghost view = { λ m. record { shapes = m.diagrams; sets = m.sets; track = m.track } };

    ghost invariant = { λ m. (m.track < MOST_TRACKS) × RemembersMerged m.diagrams m.sets m.track m.merged
        × RemembersUnited m.diagrams m.sets m.united };
}

impl Merger {
    /// Creates a merger from existing nodes and sets, for one track.
    pub fn new(diagrams: Diagrams, sets: Sets, track: u8) -> Self
        requires { track < MOST_TRACKS }
        ensures shapes { result.shapes ≡ diagrams }
        ensures sets { result.sets ≡ sets }
        ensures track { result.track ≡ track }
    {
        let merged = HashMap::new(diagrams.alloc());
        let united = PairMemo::new(diagrams.alloc());
        Merger {
            diagrams,
            sets,
            track,
            merged,
            united,
        }
    }

    /// Returns the nodes.
    pub fn diagrams(&self) -> &Diagrams
        ensures { result.now ≡ self.now.shapes }
    {
        &self.diagrams
    }

    /// Returns the numbered sets.
    pub fn sets(&self) -> &Sets
        ensures { result.now ≡ self.now.sets }
    {
        &self.sets
    }

    /// Returns the map from a letter to the number of the union of the sets at both bits of the track, as `Diagrams::merge_track`
    /// does. Nodes visited by earlier calls are not visited again.
    /// Errors: on an allocation failure the caches are cleared.
    pub fn apply(&mut self, a: Node) -> Result<Node, AllocError>
        requires known { a < length self.old.shapes }
        requires leaves { (letter : ℕ) → map_at self.old.shapes a letter < length self.old.sets }
        requires room { length self.old.sets < 2 ^ 31 }
        ensures known { IfOk result (λ node. node < length self.new.shapes) }
        ensures map { IfOk result (UnitesBits self.old.shapes self.new.shapes self.new.sets self.old.track a) }
        ensures ignores { IfOk result (λ node. IgnoresTrack self.new.shapes node self.old.track) }
        ensures top { IfOk result (λ node. top_track self.old.shapes a ≤ top_track self.new.shapes node) }
        ensures answers { OnOk result (AddsMerged self.old self.new.sets a) }
        ensures few { OnOk result (length self.new.sets ≤ length self.old.sets + 2 ^ MOST_TRACKS) }
        ensures sets { SetsKept self.old.sets self.new.sets }
        ensures grows { Grows self.old.shapes self.new.shapes }
        ensures track { self.new.track ≡ self.old.track }
    {
        match self.diagrams.merged(
            a,
            self.track,
            &mut self.sets,
            &mut self.merged,
            &mut self.united,
        ) {
            Ok(node) => Ok(node),
            Err(refused) => {
                self.merged.clear();
                self.united.clear();
                Err(refused)
            }
        }
    }

    /// Returns the map from a letter to the number of the union of the sets that `a` and `b` give. Pairs of nodes visited by
    /// earlier calls are not visited again.
    /// Errors: on an allocation failure the caches are cleared.
    pub fn unite(&mut self, a: Node, b: Node) -> Result<Node, AllocError>
        requires a_sets { HasSets self.old.shapes self.old.sets a }
        requires b_sets { HasSets self.old.shapes self.old.sets b }
        requires room { length self.old.sets < 2 ^ 31 }
        ensures united { IfOk result (λ node. IsUnited self.new.shapes self.new.sets a b node) }
        ensures answers { OnOk result (AreUnions self.old.shapes (length self.old.sets) self.new.sets a b) }
        ensures few { OnOk result (length self.new.sets ≤ length self.old.sets + 2 ^ MOST_TRACKS) }
        ensures sets { SetsKept self.old.sets self.new.sets }
        ensures grows { Grows self.old.shapes self.new.shapes }
        ensures track { self.new.track ≡ self.old.track }
    {
        match self.diagrams.united(a, b, &mut self.sets, &mut self.united) {
            Ok(node) => Ok(node),
            Err(refused) => {
                self.merged.clear();
                self.united.clear();
                Err(refused)
            }
        }
    }

    /// Returns the map whose value at a letter is that of the row `rows[a(letter)]` at the same letter, as `Diagrams::compose`
    /// does. The caches are kept.
    pub fn compose(&mut self, a: Node, rows: &[Node]) -> Result<Node, AllocError>
        requires known { a < length self.old.shapes }
        requires rows { All (λ node. node < length self.old.shapes) rows.now }
        requires leaves { (letter : ℕ) → map_at self.old.shapes a letter < length rows.now }
        ensures composed { IfOk result (IsComposed self.new.shapes rows.now a) }
        ensures sets { self.new.sets ≡ self.old.sets }
        ensures grows { Grows self.old.shapes self.new.shapes }
        ensures track { self.new.track ≡ self.old.track }
    {
        let node = self.diagrams.compose(a, rows)?;
        Ok(node)
    }
}
