//! Maps rebuilt node by node, each node once.
ghost use Rattle.std.specs.Prelude.{◌≡◌, ◌<◌, ◌≤◌, ℕ, length, All, IfOk, OnOk};
ghost use Rattle.letter_diagram.specs.Diagram.{map_at, top_track, HasMap, Grows, FitsBelow, IsAt, IsDiagram};
ghost use Rattle.letter_diagram.specs.Carried.{Carrier, KeepsLetters, source_of, side_at, IsSide, Carries, CanBeCarried, RemembersCarried};
ghost use Rattle.letter_diagram.specs.Listed.{EachAnswers};

use crate::diagrams::{Diagrams, Node, Shape};
use crate::memo::NodeCache;
use limits::MOST_TRACKS;
use std::alloc::AllocError;

/// How a map is rebuilt: what becomes of its values and of the tracks that it tests.
/// The ghost member `carrier` states it, and which nodes are rebuilt: those of another `Diagrams`, or those of the one to which
/// nodes are added.
pub trait Rebuild: Drop {
    ghost carrier: { Self → Carrier };

    ghost can: { Self → ℕ → Type 0 };

    /// Returns the shape of a node that is to be rebuilt.
    fn shape(&self, to: &Diagrams, node: Node) -> Shape
        requires { node < length (source_of (carrier self.now) to.now) }
        ensures at { IsAt (source_of (carrier self.now) to.now) node result }
        ensures fits { FitsBelow (source_of (carrier self.now) to.now) node result }
        ensures diagram { IsDiagram (source_of (carrier self.now) to.now) };

    /// Returns the node of the constant map of what `value` becomes.
    fn leaf(&self, to: &mut Diagrams, value: u32) -> Result<Node, AllocError>
        requires { can self.now value }
        ensures known { IfOk result (λ node. node < length to.new) }
        ensures map { IfOk result (λ node. (letter : ℕ) → map_at to.new node letter ≡ (carrier self.now).values value) }
        ensures top { IfOk result (λ node. top_track to.new node ≡ MOST_TRACKS) }
        ensures grows { Grows to.old to.new };

    /// Returns the node of a test of what `track` becomes, over two rebuilt branches.
    fn test(&self, to: &mut Diagrams, track: u8, low: Node, high: Node) -> Result<Node, AllocError>
        requires track_low { track < MOST_TRACKS }
        requires within { track < (carrier self.now).tracks }
        requires low { IsSide (carrier self.now) to.old track low }
        requires high { IsSide (carrier self.now) to.old track high }
        ensures known { IfOk result (λ node. node < length to.new) }
        ensures map { IfOk result (HasMap to.new (side_at (carrier self.now) to.old track low high)) }
        ensures top { IfOk result (λ node. KeepsLetters (carrier self.now).letters → track ≤ top_track to.new node) }
        ensures grows { Grows to.old to.new };
}

/// Returns the node in `to` that a node is rebuilt as. A node with an entry in `memo` is not visited again; the result of each
/// visited node is added to it.
pub fn rebuilt<C: Rebuild, M: NodeCache>(
    carry: &C,
    node: Node,
    to: &mut Diagrams,
    memo: &mut M,
) -> Result<Node, AllocError>
    requires can { CanBeCarried (C.carrier carry.now) (C.can carry.now) to.old node }
    requires remembered { RemembersCarried (C.carrier carry.now) to.old (M.answers memo.old) }
    ensures rebuilt { IfOk result (Carries (C.carrier carry.now) to.new node) }
    ensures remembered { OnOk result (RemembersCarried (C.carrier carry.now) to.new (M.answers memo.new)) }
    ensures grows { Grows to.old to.new }
{
    if let Some(made) = memo.answer(node) {
        return Ok(made);
    }
    let made = match carry.shape(to, node) {
        Shape::Leaf(value) => carry.leaf(to, value)?,
        Shape::Test { track, low, high } => {
            let low = rebuilt(carry, low, to, memo)?;
            let high = rebuilt(carry, high, to, memo)?;
            carry.test(to, track, low, high)?
        }
    };
    memo.remember(node, made)?;
    Ok(made)
}

/// Rebuilds several nodes with one cache, and returns the results in order.
pub fn rebuilt_all<C: Rebuild, M: NodeCache>(
    carry: &C,
    nodes: &[Node],
    to: &mut Diagrams,
    memo: &mut M,
) -> Result<Vec<Node>, AllocError>
    requires can { All (CanBeCarried (C.carrier carry.now) (C.can carry.now) to.old) nodes.now }
    requires remembered { RemembersCarried (C.carrier carry.now) to.old (M.answers memo.old) }
    ensures rebuilt { IfOk result (λ made. EachAnswers (Carries (C.carrier carry.now) to.new) nodes.now made.items) }
    ensures grows { Grows to.old to.new }
{
    let mut made = Vec::with_capacity(to.alloc(), nodes.len())?;
    for node in nodes {
        let answer = rebuilt(carry, *node, to, memo)?;
        made.push(answer)?;
    }
    Ok(made)
}
