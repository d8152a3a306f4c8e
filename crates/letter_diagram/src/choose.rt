//! The choice between two maps by the bit of a track.
ghost use Rattle.std.specs.Prelude.{◌<◌, ◌≤◌, length, IfOk, OnOk};
ghost use Rattle.letter_diagram.specs.Diagram.{HasMap, chosen, Grows};
ghost use Rattle.letter_diagram.specs.Splits.{top_of_both};
ghost use Rattle.letter_diagram.specs.Chosen.{IsChosen, RemembersChosen};

use crate::diagrams::{Diagrams, Node};
use crate::pair_memo::PairMemo;
use limits::MOST_TRACKS;
use std::alloc::AllocError;

impl Diagrams {
    /// Returns the map that is `low` at the letters whose bit on `track` is 0, and `high` at the others, whatever tracks the two
    /// maps test.
    /// This is the if-then-else operation of Brace, Rudell and Bryant (1990), with a track as its condition. Costs the pairs of
    /// nodes that are visited above the track.
    pub fn choose(&mut self, track: u8, low: Node, high: Node) -> Result<Node, AllocError>
        requires track_low { track < MOST_TRACKS }
        requires low_known { low < length self.old }
        requires high_known { high < length self.old }
        ensures known { IfOk result (λ node. node < length self.new) }
        ensures map { IfOk result (HasMap self.new (chosen self.old track low high)) }
        ensures grows { Grows self.old self.new }
    {
        if track <= self.top(low).min(self.top(high)) {
            return self.tested(track, low, high);
        }
        let mut memo = PairMemo::new(self.alloc());
        self.chosen(track, low, high, &mut memo)
    }

    /// Returns the choice at a track that precedes the tracks of both maps.
    fn tested(&mut self, track: u8, low: Node, high: Node) -> Result<Node, AllocError>
        requires track_low { track < MOST_TRACKS }
        requires low_known { low < length self.old }
        requires high_known { high < length self.old }
        requires first { track ≤ top_of_both self.old low high }
        ensures chosen { IfOk result (λ node. IsChosen self.new track low high node) }
        ensures grows { Grows self.old self.new }
    {
        let (low, _) = self.split(low, track);
        let (_, high) = self.split(high, track);
        let node = self.node(track, low, high)?;
        Ok(node)
    }

    /// Splits both maps by their tracks above `track`. At `track`, a new test takes `low` from the first map and `high` from the
    /// second.
    fn chosen(
        &mut self,
        track: u8,
        low: Node,
        high: Node,
        memo: &mut PairMemo,
    ) -> Result<Node, AllocError>
        requires track_low { track < MOST_TRACKS }
        requires low_known { low < length self.old }
        requires high_known { high < length self.old }
        requires remembered { RemembersChosen self.old track memo.old }
        ensures chosen { IfOk result (λ node. IsChosen self.new track low high node) }
        ensures remembered { OnOk result (RemembersChosen self.new track memo.new) }
        ensures grows { Grows self.old self.new }
    {
        let own = self.top(low).min(self.top(high));
        if track <= own {
            let node = self.tested(track, low, high)?;
            return Ok(node);
        }
        if low == high {
            return Ok(low);
        }
        if let Some(node) = memo.get(low, high) {
            return Ok(node);
        }
        let (low_off, low_on) = self.split(low, own);
        let (high_off, high_on) = self.split(high, own);
        let off = self.chosen(track, low_off, high_off, memo)?;
        let on = self.chosen(track, low_on, high_on, memo)?;
        let node = self.node(own, off, on)?;
        memo.insert(low, high, node)?;
        Ok(node)
    }
}
