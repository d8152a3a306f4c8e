//! Copies nodes from another `Diagrams`.
ghost use Rattle.std.specs.Prelude.{◌<◌, Some, length, All, IfOk};
ghost use Rattle.limits.specs.declared.numbers.TheConstants.{MOST_TRACKS};
ghost use Rattle.letter_diagram.specs.Diagram.{Grows};
ghost use Rattle.letter_diagram.specs.Carried.{AreCarried};

use crate::carry::{Rebuild, rebuilt_all};
use crate::diagrams::{Diagrams, Node, Shape};
use crate::node_memo::NodeMemo;
use std::alloc::AllocError;

/// Rebuilds nodes of another `Diagrams` without a change.
#[derive(Drop)]
struct Bringing<'a> {
    from: &'a Diagrams,
}

impl<'a> Rebuild for Bringing<'a> {
    ghost carrier = { λ s.
        record {
          from = Some s.from.now;
          letters = λ letter. letter;
          values = λ value. value;
          tracks = MOST_TRACKS;
        } };

    ghost can = { λ _ _. Unit {0} };

    fn shape(&self, _to: &Diagrams, node: Node) -> Shape {
        self.from.shape(node)
    }

    fn leaf(&self, to: &mut Diagrams, value: u32) -> Result<Node, AllocError> {
        let node = to.leaf(value)?;
        Ok(node)
    }

    fn test(
        &self,
        to: &mut Diagrams,
        track: u8,
        low: Node,
        high: Node,
    ) -> Result<Node, AllocError> {
        let node = to.node(track, low, high)?;
        Ok(node)
    }
}

impl Diagrams {
    /// Adds nodes with the maps of `nodes` of `from`, and returns them in that order. Costs the nodes of `from` reachable from
    /// `nodes`.
    pub fn bring(&mut self, from: &Diagrams, nodes: &[Node]) -> Result<Vec<Node>, AllocError>
        requires { All (λ node. node < length from.now) nodes.now }
        ensures brought { IfOk result (λ made. AreCarried from.now self.new (λ letter. letter) nodes.now made.items) }
        ensures grows { Grows self.old self.new }
    {
        let mut memo = NodeMemo::new(self.alloc(), from.len())?;
        let made = rebuilt_all(&Bringing { from }, nodes, self, &mut memo)?;
        Ok(made)
    }
}
