//! Nodes that map the rows to the classes of a partition, kept while no next state changes its class.
ghost use Rattle.std.specs.Prelude.{◌≡◌, ◌<◌, ◌^◌, All, length, IfOk, OnOk};
ghost use Rattle.letter_diagram.specs.Diagram.{Grows};
ghost use Rattle.auto_refine.specs.Coarsest.{AreClasses, IsPartition};
ghost use Rattle.auto_refine.specs.Listing.{AreLists};
ghost use Rattle.auto_predecessors.specs.RowNodes.{AreRowNodes};
ghost use Rattle.auto_refine.specs.Led.{AreLedRows, HasSharing, HasAllSharing, AreStale, AreLedAgain};
ghost use Rattle.auto_predecessors.specs.Ways.{AreRowWays};

use crate::classes::Partition;
use crate::leading::mapped_nodes;
use crate::listing::{Listing, all_states};
use crate::put::put;
use crate::round_memo::RoundMemo;
use crate::rows::picked;
use auto_core::Auto;
use auto_predecessors::{Predecessors, predecessors_of};
use letter_diagram::{Diagrams, Node};
use std::alloc::{AllocError, Global};

/// Returns those of `states` whose class's list has other states.
fn sharing(
    alloc: Global,
    partition: &Partition,
    listing: &Listing,
    states: &[u32],
) -> Result<Vec<u32>, AllocError>
    requires partition { AreClasses partition.now }
    requires listing { AreLists partition.now listing.now.representatives.items listing.now.lists.items }
    requires within { All (λ state. state < length partition.now.classes.items) states.now }
    ensures within { IfOk result (λ sharing. All (λ state. state < length partition.now.classes.items) sharing.items) }
    ensures all { IfOk result (λ sharing. HasSharing partition.now.classes.items states.now sharing.items) }
{
    let mut sharing = Vec::new(alloc);
    for state in states {
        let class = partition.classes[*state as usize] as usize;
        if listing.lists[class].len() > 1 {
            sharing.push(*state)?;
        }
    }
    Ok(sharing)
}

/// Returns the states that share their class.
pub(crate) fn sharing_states(
    alloc: Global,
    partition: &Partition,
    listing: &Listing,
) -> Result<Vec<u32>, AllocError>
    requires partition { AreClasses partition.now }
    requires few { length partition.now.classes.items < 2 ^ 31 }
    requires listing { AreLists partition.now listing.now.representatives.items listing.now.lists.items }
    ensures within { IfOk result (λ sharing. All (λ state. state < length partition.now.classes.items) sharing.items) }
    ensures all { IfOk result (λ sharing. HasAllSharing partition.now.classes.items sharing.items) }
{
    let states = all_states(alloc, partition.classes.len())?;
    let sharing = sharing(alloc, partition, listing, states.as_slice())?;
    Ok(sharing)
}

/// Returns the states that share their class and have one of `moved` as a next state.
pub(crate) fn stale_states(
    alloc: Global,
    a: &Auto,
    ways: &Predecessors,
    partition: &Partition,
    listing: &Listing,
    moved: &[u32],
) -> Result<Vec<u32>, AllocError>
    requires ways { AreRowWays a.now ways.now }
    requires partition { IsPartition (length a.now.accept) partition.now.classes.items partition.now.count }
    requires listing { AreLists partition.now listing.now.representatives.items listing.now.lists.items }
    requires within { All (λ state. state < length a.now.accept) moved.now }
    ensures { IfOk result (λ stale. AreStale a.now partition.now.classes.items moved.now stale.items) }
{
    let found = predecessors_of(alloc, a, ways, moved)?;
    let stale = sharing(alloc, partition, listing, found.as_slice())?;
    Ok(stale)
}

/// Maps the rows of some states to classes again. The other states keep their nodes.
pub(crate) fn remap_rows(
    diagrams: &mut Diagrams,
    a: &Auto,
    rows: &[Node],
    states: &[u32],
    classes: &[u32],
    led: &mut [Node],
    memo: &mut RoundMemo,
) -> Result<(), AllocError>
    requires rows { AreRowNodes a.now rows.now }
    requires states { All (λ state. state < length a.now.accept) states.now }
    requires classes { length classes.now ≡ length a.now.accept }
    requires led { length led.old ≡ length a.now.accept }
    ensures led { OnOk result (AreLedAgain a.now diagrams.new states.now classes.now led.old led.new) }
    ensures grows { Grows diagrams.old diagrams.new }
{
    let picked = picked(diagrams.alloc(), rows, states)?;
    let nodes = mapped_nodes(a.diagrams(), picked.as_slice(), classes, diagrams, memo)?;
    put(led, states, nodes.as_slice());
    Ok(())
}

/// Maps all rows to the classes of a partition.
pub(crate) fn lead(
    diagrams: &mut Diagrams,
    a: &Auto,
    rows: &[Node],
    partition: &Partition,
    memo: &mut RoundMemo,
) -> Result<Vec<Node>, AllocError>
    requires rows { AreRowNodes a.now rows.now }
    requires partition { IsPartition (length a.now.accept) partition.now.classes.items partition.now.count }
    ensures { IfOk result (λ led. AreLedRows a.now diagrams.new partition.now.classes.items led.items) }
{
    let led = mapped_nodes(
        a.diagrams(),
        rows,
        partition.classes.as_slice(),
        diagrams,
        memo,
    )?;
    Ok(led)
}
