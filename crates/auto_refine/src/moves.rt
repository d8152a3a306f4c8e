//! States that move to new classes, since their nodes differ from those of their classes' representatives.
ghost use Rattle.std.specs.Prelude.{◌<◌, ◌^◌, ℕ, All, Contains, length, IfOk, OnOk};
ghost use Rattle.auto_refine.specs.Coarsest.{AreClasses, IsPartition};
ghost use Rattle.auto_refine.specs.Listing.{AreLists};
ghost use Rattle.auto_refine.specs.Moves.{AreCandidates, AreFound, KeepsMoves, MovesIfOther, MovesOthers};

use crate::classes::Partition;
use crate::listing::{Listing, prune};
use crate::signatures::Signatures;
use letter_diagram::Node;
use std::alloc::{AllocError, Global};

/// States with their new classes. Each signature has one new class, numbered after the existing ones; `firsts` has one state of
/// each.
#[derive(Drop)]
pub struct Moves {
    pub signatures: Signatures,
    pub states: Vec<u32>,
    pub numbers: Vec<u32>,
    pub firsts: Vec<u32>,
}

/// Returns the distinct states among `states`: a state may be stale itself and also be in the list of its class.
fn each_once(alloc: Global, count: usize, states: &[u32]) -> Result<Vec<u32>, AllocError>
    requires { All (λ state. state < count) states.now }
    ensures within { IfOk result (λ once. All (λ state. state < count) once.items) }
    ensures all { IfOk result (λ once. (state : ℕ) → Contains states.now state → Contains once.items state) }
{
    let mut seen = vec![in alloc; false; count]?;
    let mut once = Vec::new(alloc);
    for state in states {
        if !seen[*state as usize] {
            once.push(*state)?;
            seen[*state as usize] = true;
        }
    }
    Ok(once)
}

/// Returns the states of `candidates`, possibly with repeats.
fn with_repeats(
    alloc: Global,
    partition: &Partition,
    representatives: &[u32],
    lists: &mut Vec<Vec<u32>>,
    stale: &[u32],
) -> Result<Vec<u32>, AllocError>
    requires partition { AreClasses partition.now }
    requires listing { AreLists partition.now representatives.now lists.old.items }
    requires stale { All (λ state. state < length partition.now.classes.items) stale.now }
    ensures candidates { IfOk result (λ found. AreCandidates partition.now representatives.now stale.now found.items) }
    ensures listing { OnOk result (AreLists partition.now representatives.now lists.new.items) }
{
    let mut found = Vec::with_capacity(alloc, stale.len())?;
    for state in stale {
        let class = partition.classes[*state as usize];
        if representatives[class as usize] == *state {
            prune(alloc, partition, class, lists)?;
            found.extend_from_slice(lists[class as usize].as_slice())?;
        } else {
            found.push(*state)?;
        }
    }
    Ok(found)
}

/// Returns the states to be examined if some states have new nodes: these, and all states of a class whose representative is one of
/// them. Prunes the lists of these classes. Costs the result, and a mark for each state.
pub(crate) fn candidates(
    alloc: Global,
    partition: &Partition,
    representatives: &[u32],
    lists: &mut Vec<Vec<u32>>,
    stale: &[u32],
) -> Result<Vec<u32>, AllocError>
    requires partition { AreClasses partition.now }
    requires listing { AreLists partition.now representatives.now lists.old.items }
    requires stale { All (λ state. state < length partition.now.classes.items) stale.now }
    ensures candidates { IfOk result (λ found. AreCandidates partition.now representatives.now stale.now found.items) }
    ensures listing { OnOk result (AreLists partition.now representatives.now lists.new.items) }
{
    let found = with_repeats(alloc, partition, representatives, lists, stale)?;
    let once = each_once(alloc, partition.classes.len(), found.as_slice())?;
    Ok(once)
}

/// Assigns a state to a new class if its node differs from that of its class's representative.
fn sort_state(
    partition: &Partition,
    listing: &Listing,
    nodes: &[Node],
    state: u32,
    moves: &mut Moves,
) -> Result<(), AllocError>
    requires partition { IsPartition (length nodes.now) partition.now.classes.items partition.now.count }
    requires listing { AreLists partition.now listing.now.representatives.items listing.now.lists.items }
    requires few { length nodes.now < 2 ^ 31 }
    requires within { state < length nodes.now }
    requires moves { AreFound partition.now listing.now.representatives.items nodes.now moves.old }
    ensures moves { OnOk result (AreFound partition.now listing.now.representatives.items nodes.now moves.new) }
    ensures kept { OnOk result (KeepsMoves moves.old moves.new) }
    ensures moved { OnOk result (MovesIfOther partition.now listing.now nodes.now moves.new state) }
{
    let class = partition.classes[state as usize];
    let node = nodes[state as usize];
    let chosen = nodes[listing.representatives[class as usize] as usize];
    if node == chosen {
        return Ok(());
    }
    let place = moves.signatures.add(class, node)?;
    if moves.firsts.len() < moves.signatures.len() {
        moves.firsts.push(state)?;
    }
    moves.states.push(state)?;
    moves.numbers.push(partition.count as u32 + place)?;
    Ok(())
}

/// Returns those of `states` whose nodes differ from those of their classes' representatives, with their new classes.
pub(crate) fn find_moves(
    alloc: Global,
    partition: &Partition,
    listing: &Listing,
    nodes: &[Node],
    candidates: &[u32],
) -> Result<Moves, AllocError>
    requires partition { IsPartition (length nodes.now) partition.now.classes.items partition.now.count }
    requires listing { AreLists partition.now listing.now.representatives.items listing.now.lists.items }
    requires few { length nodes.now < 2 ^ 31 }
    requires within { All (λ state. state < length nodes.now) candidates.now }
    ensures moves { IfOk result (λ moves. AreFound partition.now listing.now.representatives.items nodes.now moves) }
    ensures moved { IfOk result (λ moves. MovesOthers partition.now listing.now nodes.now moves candidates.now) }
{
    let mut moves = Moves {
        signatures: Signatures::new(alloc),
        states: Vec::new(alloc),
        numbers: Vec::new(alloc),
        firsts: Vec::new(alloc),
    };
    for state in candidates {
        sort_state(partition, listing, nodes, *state, &mut moves)?;
    }
    Ok(moves)
}
