//! Nodes with the maps of nodes of another `Diagrams`, whose values are replaced by table entries.
ghost use Rattle.std.specs.Prelude.{◌<◌, ℕ, All, length, IfOk};
ghost use Rattle.letter_diagram.specs.Diagram.{map_at, Grows};
ghost use Rattle.letter_diagram.specs.Listed.{EachAnswers};
ghost use Rattle.auto_refine.specs.Leading.{IsLedFrom, by_table};

use crate::round_memo::RoundMemo;
use letter_diagram::{Diagrams, Node, Rebuild, Shape, rebuilt_all};
use std::alloc::AllocError;

/// Rebuilds nodes of another `Diagrams` with each value replaced by its entry in a table.
#[derive(Drop)]
pub struct ByTable<'a> {
    pub from: &'a Diagrams,
    pub table: &'a [u32],
}

impl<'a> Rebuild for ByTable<'a> {
    ghost carrier = { λ s. by_table s.from.now s.table.now };

    ghost can = { λ s value. value < length s.table.now };

    fn shape(&self, _to: &Diagrams, node: Node) -> Shape {
        self.from.shape(node)
    }

    fn leaf(&self, to: &mut Diagrams, value: u32) -> Result<Node, AllocError> {
        let node = to.leaf(self.table[value as usize])?;
        Ok(node)
    }

    fn test(
        &self,
        to: &mut Diagrams,
        track: u8,
        low: Node,
        high: Node,
    ) -> Result<Node, AllocError> {
        let node = to.node(track, low, high)?;
        Ok(node)
    }
}

/// Returns for each of several nodes of `from`, in order, the node in `to` that gives the entry of `table` at each of its values.
/// Shared nodes are rebuilt once. `memo` has room for each node of `from`, and is reused by later calls. Costs the nodes that are
/// rebuilt, and the entries that the call before left in `memo`.
pub fn mapped_nodes(
    from: &Diagrams,
    nodes: &[Node],
    table: &[u32],
    to: &mut Diagrams,
    memo: &mut RoundMemo,
) -> Result<Vec<Node>, AllocError>
    requires known { All (λ node. node < length from.now) nodes.now }
    requires leaves { All (λ node. (letter : ℕ) → map_at from.now node letter < length table.now) nodes.now }
    ensures led { IfOk result (λ answers. EachAnswers (IsLedFrom from.now to.new table.now) nodes.now answers.items) }
    ensures grows { Grows to.old to.new }
{
    memo.clear();
    let led = rebuilt_all(&ByTable { from, table }, nodes, to, memo)?;
    Ok(led)
}
