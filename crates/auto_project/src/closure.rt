//! The first row, closed under sign extension.
ghost use Rattle.std.specs.Prelude.{◌≡◌, ◌<◌, ◌≢◌, [], ℕ, length, All, IfOk, OnOk};
ghost use Rattle.std.specs.List.Sorted.{IsStrictlyIncreasing};
ghost use Rattle.letter_diagram.specs.Diagram.{Grows};
ghost use Rattle.letter_diagram.specs.Sets.{SetsKept, set_at};
ghost use Rattle.letter_diagram.specs.Merged.{HasSets};
ghost use Rattle.auto_core.specs.Automaton.{IsAutomaton};
ghost use Rattle.auto_project.specs.SetMaps.{AreRowsIn, HasSomeStatesIn, HasStatesIn, HasUnionRowsIn, IsSignRowIn, IsLiftRowIn, IsLedRowIn, IsSweptIn, IsUnionRowIn};

use crate::join::{unite, united_rows};
use crate::sets::copied_set;
use auto_core::Auto;
use letter_diagram::{Merger, Node};
use std::alloc::AllocError;
use track_word::Var;

/// The rows of an automaton's states over some of its tracks.
#[derive(Drop)]
pub struct TrackRows<'a> {
    pub automaton: &'a Auto,
    pub tracks: Vec<Var>,
    pub nodes: Vec<Node>,
}

impl<'a> TrackRows<'a> {
    /// Returns the node that maps each letter to the set of the states that follow the states of a numbered set.
    fn row_of_set(&self, merger: &mut Merger, number: u32) -> Result<Node, AllocError>
        requires rows { All (HasSets merger.old.shapes merger.old.sets) self.now.nodes.items }
        requires known { number < length merger.old.sets }
        requires some { set_at merger.old.sets number ≢ [] }
        requires within { All (λ state. state < length self.now.nodes.items) (set_at merger.old.sets number) }
        ensures union { IfOk result (IsUnionRowIn merger.new self.now.nodes.items (set_at merger.old.sets number)) }
        ensures grows { Grows merger.old.shapes merger.new.shapes }
        ensures kept { SetsKept merger.old.sets merger.new.sets }
    {
        let set = copied_set(merger.diagrams().alloc(), merger.sets(), number)?;
        let row = united_rows(merger, self.nodes.as_slice(), set.as_slice())?;
        Ok(row)
    }

    /// Returns a table that has, at the number of each set that the node gives, the row of that set. Other entries are unused.
    fn rows_of_sets(&self, merger: &mut Merger, node: Node) -> Result<Vec<Node>, AllocError>
        requires rows { All (HasSets merger.old.shapes merger.old.sets) self.now.nodes.items }
        requires states { HasStatesIn merger.old self.now node }
        ensures rows { IfOk result (λ table. HasUnionRowsIn merger.new self.now node table.items) }
        ensures grows { Grows merger.old.shapes merger.new.shapes }
        ensures kept { SetsKept merger.old.sets merger.new.sets }
    {
        let numbers = merger.diagrams().leaves(node)?;
        let mut table = vec![in merger.diagrams().alloc(); node; merger.sets().len()]?;
        for number in numbers.as_slice() {
            let row = self.row_of_set(merger, *number)?;
            table[*number as usize] = row;
        }
        Ok(table)
    }

    /// Returns the node whose sets also contain what follows their states by the same letter.
    fn swept(&self, merger: &mut Merger, node: Node) -> Result<Node, AllocError>
        requires valid { IsAutomaton self.now.automaton.now }
        requires rows { AreRowsIn merger.old self.now }
        requires led { IsLedRowIn merger.old self.now node }
        ensures led { IfOk result (IsLedRowIn merger.new self.now) }
        ensures swept { IfOk result (IsSweptIn merger.new self.now node) }
        ensures ascend { OnOk result (All IsStrictlyIncreasing merger.new.sets) }
        ensures grows { Grows merger.old.shapes merger.new.shapes }
        ensures kept { SetsKept merger.old.sets merger.new.sets }
    {
        let table = self.rows_of_sets(merger, node)?;
        let ahead = merger.compose(node, table.as_slice())?;
        let next = unite(merger, node, ahead)?;
        let _ = merger.sets().len(); // for its invariant
        Ok(next)
    }

    /// Returns the first row closed under repeated first letters. Each round adds at least one state to each set that is not
    /// closed, so there are at most as many rounds as states.
    pub fn closed(&self, merger: &mut Merger, first: Node) -> Result<Node, AllocError>
        requires valid { IsAutomaton self.now.automaton.now }
        requires first { IsSignRowIn merger.old self.now first }
        requires some { HasSomeStatesIn merger.old self.now first }
        requires rows { AreRowsIn merger.old self.now }
        ensures closed { IfOk result (IsLiftRowIn merger.new self.now) }
        ensures grows { Grows merger.old.shapes merger.new.shapes }
        ensures kept { SetsKept merger.old.sets merger.new.sets }
    {
        let _ = merger.sets().len(); // for its invariant
        let mut node = first;
        for round in 0..self.nodes.len() {
            let next = self.swept(merger, node)?;
            if next == node {
                return Ok(node);
            }
            node = next;
        }
        Ok(node)
    }
}
