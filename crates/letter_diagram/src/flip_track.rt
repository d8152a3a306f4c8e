//! Maps at letters with one bit flipped.
ghost use Rattle.std.specs.Prelude.{◌<◌, None, length, All, IfOk};
ghost use Rattle.limits.specs.declared.numbers.TheConstants.{MOST_TRACKS};
ghost use Rattle.letter_diagram.specs.Diagram.{map_at, HasMap, Grows};
ghost use Rattle.letter_diagram.specs.Carried.{AreCarried};
ghost use Rattle.letter_diagram.specs.Turned.{turned};

use crate::carry::{Rebuild, rebuilt, rebuilt_all};
use crate::diagrams::{Diagrams, Node, Shape};
use crate::node_memo::NodeMemo;
use limits::MOST_TRACKS;
use std::alloc::AllocError;

/// Rebuilds nodes with the branches of one track exchanged.
#[derive(Drop)]
struct Turning {
    track: u8,
    ghost track_low: { track < MOST_TRACKS },
}

impl Rebuild for Turning {
    ghost carrier = { λ s.
        record {
          from = None;
          letters = turned s.track;
          values = λ value. value;
          tracks = MOST_TRACKS;
        } };

    ghost can = { λ _ _. Unit {0} };

    fn shape(&self, to: &Diagrams, node: Node) -> Shape {
        to.shape(node)
    }

    fn leaf(&self, to: &mut Diagrams, value: u32) -> Result<Node, AllocError> {
        let node = to.leaf(value)?;
        Ok(node)
    }

    fn test(
        &self,
        to: &mut Diagrams,
        track: u8,
        low: Node,
        high: Node,
    ) -> Result<Node, AllocError> {
        let (low, high) = if track == self.track {
            (high, low)
        } else {
            (low, high)
        };
        let node = to.choose(track, low, high)?;
        Ok(node)
    }
}

impl Diagrams {
    /// Returns the map whose value at a letter is that of `a` at the letter with its bit on `track` flipped.
    pub fn flip_track(&mut self, a: Node, track: u8) -> Result<Node, AllocError>
        requires known { a < length self.old }
        requires track_low { track < MOST_TRACKS }
        ensures known { IfOk result (λ node. node < length self.new) }
        ensures map { IfOk result (HasMap self.new (λ letter. map_at self.old a (turned track letter))) }
        ensures grows { Grows self.old self.new }
    {
        let mut memo = NodeMemo::new(self.alloc(), self.len())?;
        let node = rebuilt(&Turning { track }, a, self, &mut memo)?;
        Ok(node)
    }

    /// Applies `flip_track` to several nodes with one cache, and returns the results in order.
    pub fn flip_track_all(&mut self, nodes: &[Node], track: u8) -> Result<Vec<Node>, AllocError>
        requires known { All (λ node. node < length self.old) nodes.now }
        requires track_low { track < MOST_TRACKS }
        ensures turned { IfOk result (λ made. AreCarried self.new self.new (turned track) nodes.now made.items) }
        ensures grows { Grows self.old self.new }
    {
        let mut memo = NodeMemo::new(self.alloc(), self.len())?;
        let made = rebuilt_all(&Turning { track }, nodes, self, &mut memo)?;
        Ok(made)
    }
}
