//! Maps of unions of the two sets that a map gives at the bits of a track.
ghost use Rattle.std.specs.Prelude.{◌≡◌, ◌<◌, ◌≤◌, ◌+◌, ◌^◌, ℕ, length, IfOk, OnOk};
ghost use Rattle.letter_diagram.specs.Diagram.{map_at, top_track, Grows};
ghost use Rattle.letter_diagram.specs.Sets.{SetsKept};
ghost use Rattle.letter_diagram.specs.Splits.{top_of_both, room_for};
ghost use Rattle.letter_diagram.specs.Merged.{UnitesBits, HasSets, IsUnited, AreUnions, RemembersUnited, IgnoresTrack, IsMerged, AreMerged, RemembersMerged};

use crate::diagrams::{Diagrams, Node};
use crate::pair_memo::PairMemo;
use crate::sets::Sets;
use limits::MOST_TRACKS;
use std::alloc::AllocError;
use std::collections::HashMap;

impl Diagrams {
    /// Returns the map from a letter to the number, in `sets`, of the union of the sets that `a` gives at the bits 0 and 1 of
    /// `track`.
    /// The result does not depend on `track`. This is the subset construction for the existential quantification of a track.
    pub fn merge_track(&mut self, a: Node, track: u8, sets: &mut Sets) -> Result<Node, AllocError>
        requires known { a < length self.old }
        requires track_low { track < MOST_TRACKS }
        requires leaves { (letter : ℕ) → map_at self.old a letter < length sets.old }
        requires room { length sets.old < 2 ^ 31 }
        ensures known { IfOk result (λ node. node < length self.new) }
        ensures map { IfOk result (UnitesBits self.old self.new sets.new track a) }
        ensures ignores { IfOk result (λ node. IgnoresTrack self.new node track) }
        ensures top { IfOk result (λ node. top_track self.old a ≤ top_track self.new node) }
        ensures answers { OnOk result (AreMerged self.old (length sets.old) sets.new track a) }
        ensures few { OnOk result (length sets.new ≤ length sets.old + 2 ^ MOST_TRACKS) }
        ensures sets { SetsKept sets.old sets.new }
        ensures grows { Grows self.old self.new }
    {
        let mut merged = HashMap::new(self.alloc());
        let mut united = PairMemo::new(self.alloc());
        self.merged(a, track, sets, &mut merged, &mut united)
    }

    /// Unites both branches at `track`; above it, merges the branches of each test.
    pub(crate) fn merged(
        &mut self,
        a: Node,
        track: u8,
        sets: &mut Sets,
        merged: &mut HashMap<Node, Node>,
        united: &mut PairMemo,
    ) -> Result<Node, AllocError>
        requires track_low { track < MOST_TRACKS }
        requires source { HasSets self.old sets.old a }
        requires room { length sets.old + room_for self.old a a < 2 ^ 32 }
        requires merged { RemembersMerged self.old sets.old track merged.old }
        requires united { RemembersUnited self.old sets.old united.old }
        ensures merged { IfOk result (λ node. IsMerged self.new sets.new track a node) }
        ensures remembered { OnOk result (RemembersMerged self.new sets.new track merged.new) }
        ensures united { OnOk result (RemembersUnited self.new sets.new united.new) }
        ensures room { OnOk result (length sets.new ≤ length sets.old + room_for self.old a a) }
        ensures answers { OnOk result (AreMerged self.old (length sets.old) sets.new track a) }
        ensures sets { SetsKept sets.old sets.new }
        ensures grows { Grows self.old self.new }
    {
        let own = self.top(a);
        if track < own {
            return Ok(a);
        }
        if let Some(node) = merged.get(&a) {
            return Ok(*node);
        }
        let (low, high) = self.split(a, own);
        if own == track {
            let node = self.united(low, high, sets, united)?;
            merged.insert(a, node)?;
            return Ok(node);
        }
        let low = self.merged(low, track, sets, merged, united)?;
        let high = self.merged(high, track, sets, merged, united)?;
        let node = self.node(own, low, high)?;
        merged.insert(a, node)?;
        Ok(node)
    }

    /// Returns the map of unions of the sets that two maps number.
    #[cycle(united)]
    pub(crate) fn united(
        &mut self,
        a: Node,
        b: Node,
        sets: &mut Sets,
        memo: &mut PairMemo,
    ) -> Result<Node, AllocError>
        requires a_sets { HasSets self.old sets.old a }
        requires b_sets { HasSets self.old sets.old b }
        requires room { length sets.old + room_for self.old a b < 2 ^ 32 }
        requires remembered { RemembersUnited self.old sets.old memo.old }
        ensures united { IfOk result (λ node. IsUnited self.new sets.new a b node) }
        ensures remembered { OnOk result (RemembersUnited self.new sets.new memo.new) }
        ensures room { OnOk result (length sets.new ≤ length sets.old + room_for self.old a b) }
        ensures answers { OnOk result (AreUnions self.old (length sets.old) sets.new a b) }
        ensures sets { SetsKept sets.old sets.new }
        ensures grows { Grows self.old self.new }
    {
        let track = self.top(a).min(self.top(b));
        if a == b {
            return Ok(a);
        }
        if let Some(node) = memo.get(a, b) {
            return Ok(node);
        }
        let node = if track == MOST_TRACKS {
            self.united_leaves(a, b, sets)?
        } else {
            self.united_sides(a, b, track, sets, memo)?
        };
        memo.insert(a, b, node)?;
        Ok(node)
    }

    fn united_leaves(&mut self, a: Node, b: Node, sets: &mut Sets) -> Result<Node, AllocError>
        requires a_sets { HasSets self.old sets.old a }
        requires b_sets { HasSets self.old sets.old b }
        requires constant { top_of_both self.old a b ≡ MOST_TRACKS }
        requires a_constant { (letter : ℕ) → map_at self.old a letter ≡ map_at self.old a 0 }
        requires b_constant { (letter : ℕ) → map_at self.old b letter ≡ map_at self.old b 0 }
        requires room { length sets.old + 1 < 2 ^ 32 }
        ensures united { IfOk result (λ node. IsUnited self.new sets.new a b node) }
        ensures room { OnOk result (length sets.new ≤ length sets.old + 1) }
        ensures answers { OnOk result (AreUnions self.old (length sets.old) sets.new a b) }
        ensures sets { SetsKept sets.old sets.new }
        ensures grows { Grows self.old self.new }
    {
        let number = sets.unite(self.read(a, 0), self.read(b, 0))?;
        self.leaf(number)
    }

    #[cycle(united)]
    fn united_sides(
        &mut self,
        a: Node,
        b: Node,
        track: u8,
        sets: &mut Sets,
        memo: &mut PairMemo,
    ) -> Result<Node, AllocError>
        requires a_sets { HasSets self.old sets.old a }
        requires b_sets { HasSets self.old sets.old b }
        requires track { track ≡ top_of_both self.old a b }
        requires track_low { track < MOST_TRACKS }
        requires room { length sets.old + room_for self.old a b < 2 ^ 32 }
        requires remembered { RemembersUnited self.old sets.old memo.old }
        ensures united { IfOk result (λ node. IsUnited self.new sets.new a b node) }
        ensures remembered { OnOk result (RemembersUnited self.new sets.new memo.new) }
        ensures room { OnOk result (length sets.new ≤ length sets.old + room_for self.old a b) }
        ensures answers { OnOk result (AreUnions self.old (length sets.old) sets.new a b) }
        ensures sets { SetsKept sets.old sets.new }
        ensures grows { Grows self.old self.new }
    {
        let (a_low, a_high) = self.split(a, track);
        let (b_low, b_high) = self.split(b, track);
        let low = self.united(a_low, b_low, sets, memo)?;
        let high = self.united(a_high, b_high, sets, memo)?;
        let node = self.node(track, low, high)?;
        Ok(node)
    }
}
