//! Unions of sets, letter by letter.
ghost use Rattle.std.specs.Prelude.{◌≡◌, ◌≢◌, ◌<◌, [], length, map, slice_index, All, IfOk};
ghost use Rattle.letter_diagram.specs.Diagram.{Grows};
ghost use Rattle.letter_diagram.specs.Sets.{SetsKept};
ghost use Rattle.letter_diagram.specs.Merged.{HasSets, IsUnited};
ghost use Rattle.auto_project.specs.SetMaps.{IsUnionOf, IsUnionRowIn};

use letter_diagram::{Diagrams, Merger, Node, Sets};
use std::alloc::{AllocError, Global};

/// Returns a merger for unions only. Its track is arbitrary, since no node is merged at it.
pub(crate) fn uniter(diagrams: Diagrams, sets: Sets) -> Merger
    ensures shapes { result.shapes ≡ diagrams }
    ensures sets { result.sets ≡ sets }
{
    Merger::new(diagrams, sets, 0)
}

/// Returns the node that maps each letter to the union of the sets of both nodes. Errors: an allocation failed, or there are 2^31
/// sets.
pub(crate) fn unite(merger: &mut Merger, a: Node, b: Node) -> Result<Node, AllocError>
    requires a_sets { HasSets merger.old.shapes merger.old.sets a }
    requires b_sets { HasSets merger.old.shapes merger.old.sets b }
    ensures united { IfOk result (λ node. IsUnited merger.new.shapes merger.new.sets a b node) }
    ensures grows { Grows merger.old.shapes merger.new.shapes }
    ensures kept { SetsKept merger.old.sets merger.new.sets }
{
    if merger.sets().len() >= 1 << 31 {
        return Err(AllocError);
    }
    let node = merger.unite(a, b)?;
    Ok(node)
}

/// Returns the node that maps each letter to the union of the sets of several nodes. Unites them in halves, so that each set is
/// read at most as often as the list is halved.
pub(crate) fn united(merger: &mut Merger, nodes: &[Node]) -> Result<Node, AllocError>
    requires some { nodes.now ≢ [] }
    requires sets { All (HasSets merger.old.shapes merger.old.sets) nodes.now }
    ensures united { IfOk result (λ node. IsUnionOf merger.new.shapes merger.new.sets nodes.now node) }
    ensures grows { Grows merger.old.shapes merger.new.shapes }
    ensures kept { SetsKept merger.old.sets merger.new.sets }
{
    if nodes.len() == 1 {
        return Ok(nodes[0]);
    }
    let (front, back) = nodes.split_at(nodes.len() / 2);
    let a = united(merger, front)?;
    let b = united(merger, back)?;
    let node = unite(merger, a, b)?;
    Ok(node)
}

/// Returns the rows of several states.
fn rows_of(alloc: Global, rows: &[Node], set: &[u32]) -> Result<Vec<Node>, AllocError>
    requires { All (λ state. state < length rows.now) set.now }
    ensures { IfOk result (λ picked. picked.items ≡ map (slice_index rows.now) set.now) }
{
    let mut picked = Vec::new(alloc);
    for state in set {
        picked.push(rows[*state as usize])?;
    }
    Ok(picked)
}

/// Returns the node that maps each letter to the set of the states that follow the states of a set.
pub(crate) fn united_rows(
    merger: &mut Merger,
    rows: &[Node],
    set: &[u32],
) -> Result<Node, AllocError>
    requires some { set.now ≢ [] }
    requires rows { All (HasSets merger.old.shapes merger.old.sets) rows.now }
    requires set { All (λ state. state < length rows.now) set.now }
    ensures union { IfOk result (IsUnionRowIn merger.new rows.now set.now) }
    ensures grows { Grows merger.old.shapes merger.new.shapes }
    ensures kept { SetsKept merger.old.sets merger.new.sets }
{
    let nodes = rows_of(merger.diagrams().alloc(), rows, set)?;
    let node = united(merger, nodes.as_slice())?;
    Ok(node)
}
