//! The coarsest partition of the states that respects flags and next states.
ghost use Rattle.std.specs.Prelude.{◌≡◌, ◌<◌, ◌^◌, [], All, Contains, length, IfOk, OnOk};
ghost use Rattle.auto_core.specs.Automaton.{IsAutomaton};
ghost use Rattle.auto_refine.specs.Coarsest.{IsPartition, IsCoarsest};
ghost use Rattle.auto_refine.specs.Listing.{AreLists};
ghost use Rattle.auto_refine.specs.Moves.{WasSplit, AreMoved, IsSettled, CountGrows, KeepsOthers, count_with};
ghost use Rattle.auto_refine.specs.Refining.{IsLedTo, LeadsInto, IsRefined, IsFlag, IsSound};

use crate::classes::Partition;
use crate::listing::{Listing, add_lists, all_states, list_each, list_states};
use crate::moves::{Moves, candidates, find_moves};
use crate::put::put;
use crate::round_memo::RoundMemo;
use crate::stale::{lead, remap_rows, sharing_states, stale_states};
use auto_core::Auto;
use auto_predecessors::{row_nodes, row_predecessors};
use letter_diagram::{Diagrams, Node};
use std::alloc::{AllocError, Global};

/// Moves states to their new classes, each of which gets one of its states as its representative.
fn move_states(
    alloc: Global,
    moves: &Moves,
    partition: &mut Partition,
    listing: &mut Listing,
) -> Result<(), AllocError>
    requires states { All (λ state. state < length partition.old.classes.items) moves.now.states.items }
    requires size { length moves.now.numbers.items ≡ length moves.now.states.items }
    requires numbers { All (λ number. number < count_with partition.old moves.now) moves.now.numbers.items }
    requires lists { length listing.old.lists.items ≡ partition.old.count }
    requires few { count_with partition.old moves.now < 2 ^ 32 }
    ensures { OnOk result (AreMoved moves.now partition.old partition.new listing.old listing.new) }
{
    put(
        partition.classes.as_mut_slice(),
        moves.states.as_slice(),
        moves.numbers.as_slice(),
    );
    partition.count += moves.firsts.len();
    listing
        .representatives
        .extend_from_slice(moves.firsts.as_slice())?;
    add_lists(alloc, &mut listing.lists, moves.firsts.len())?;
    list_each(
        &mut listing.lists,
        moves.states.as_slice(),
        moves.numbers.as_slice(),
    )?;
    Ok(())
}

/// Splits the classes of a partition by the nodes of their states. States with their representative's node keep their class number.
/// Examines only states that may have another node, and returns the states that moved to a new class.
fn split(
    alloc: Global,
    nodes: &[Node],
    stale: &[u32],
    partition: &mut Partition,
    listing: &mut Listing,
) -> Result<Vec<u32>, AllocError>
    requires partition { IsPartition (length nodes.now) partition.old.classes.items partition.old.count }
    requires listing { AreLists partition.old listing.old.representatives.items listing.old.lists.items }
    requires stale { All (λ state. state < length nodes.now) stale.now }
    requires settled { IsSettled partition.old listing.old nodes.now stale.now }
    requires few { length nodes.now < 2 ^ 31 }
    ensures split { OnOk result (WasSplit partition.old nodes.now partition.new) }
    ensures count { IfOk result (λ moved. CountGrows partition.old partition.new moved.items) }
    ensures listing { OnOk result (AreLists partition.new listing.new.representatives.items listing.new.lists.items) }
    ensures settled { OnOk result (IsSettled partition.new listing.new nodes.now []) }
    ensures within { IfOk result (λ moved. All (λ state. state < length nodes.now) moved.items) }
    ensures moved { IfOk result (λ moved. KeepsOthers partition.old partition.new moved.items) }
{
    let found = candidates(
        alloc,
        partition,
        listing.representatives.as_slice(),
        &mut listing.lists,
        stale,
    )?;
    let moves = find_moves(alloc, partition, listing, nodes, found.as_slice())?;
    move_states(alloc, &moves, partition, listing)?;
    Ok(moves.states)
}

/// Returns the flag of each state as a class; that of the first state is class 0.
fn flag_classes(alloc: Global, a: &Auto) -> Result<Vec<u32>, AllocError>
    ensures flags { IfOk result (λ classes. IsFlag a.now classes.items) }
    ensures valid { IsAutomaton a.now }
{
    let states = a.states();
    let first = a.accept_of(0);
    let mut classes = Vec::with_capacity(alloc, states as usize)?;
    for state in 0..states {
        classes.push(u32::from(a.accept_of(state) != first))?;
    }
    Ok(classes)
}

/// Returns the partition by flags.
fn by_flags(alloc: Global, a: &Auto) -> Result<Partition, AllocError>
    ensures sound { IfOk result (λ p. IsSound a.now p.classes.items p.count) }
    ensures valid { IsAutomaton a.now }
{
    let classes = flag_classes(alloc, a)?;
    let both = classes.as_slice().contains(&1);
    Ok(Partition {
        classes,
        count: 1 + usize::from(both),
    })
}

/// The state of a refinement.
#[derive(Drop)]
struct Refining {
    diagrams: Diagrams,
    partition: Partition,
    listing: Listing,
    /// For each state its row, mapped to classes.
    led: Vec<Node>,
    /// The cache for mapping rows in a round.
    memo: RoundMemo,
}

/// Returns the partition by flags, with rows mapped to its classes.
fn start(alloc: Global, a: &Auto) -> Result<Refining, AllocError>
    ensures led { IfOk result (λ refining. IsLedTo a.now refining) }
    ensures valid { IsAutomaton a.now }
{
    let partition = by_flags(alloc, a)?;
    let mut diagrams = Diagrams::with_capacity(alloc, a.diagrams().len())?;
    let listing = list_states(alloc, &partition)?;
    let mut memo = RoundMemo::new(alloc, a.diagrams().len())?;
    let led = lead(&mut diagrams, a, row_nodes(a), &partition, &mut memo)?;
    Ok(Refining {
        diagrams,
        partition,
        listing,
        led,
        memo,
    })
}

/// Splits the classes by the classes of the next states. Rows mapped to classes are compared as nodes, since equal maps are equal
/// nodes. Returns the states that moved to a new class.
fn round(a: &Auto, refining: &mut Refining, stale: &[u32]) -> Result<Vec<u32>, AllocError>
    requires led { IsLedTo a.now refining.old }
    requires stale { All (λ state. state < length a.now.accept) stale.now }
    requires settled { IsSettled refining.old.partition refining.old.listing refining.old.led.items stale.now }
    ensures refined { IfOk result (λ moved. IsRefined a.now refining.new (LeadsInto a.now moved.items)) }
    ensures within { IfOk result (λ moved. All (λ state. state < length a.now.accept) moved.items) }
    ensures count { IfOk result (λ moved. CountGrows refining.old.partition refining.new.partition moved.items) }
{
    let _ = a.states(); // for its invariant
    let moved = split(
        refining.diagrams.alloc(),
        refining.led.as_slice(),
        stale,
        &mut refining.partition,
        &mut refining.listing,
    )?;
    Ok(moved)
}

/// Maps the rows of some states again, and splits the classes. Returns the states that moved to a new class.
fn next_round(a: &Auto, refining: &mut Refining, stale: &[u32]) -> Result<Vec<u32>, AllocError>
    requires refined { IsRefined a.now refining.old (Contains stale.now) }
    requires stale { All (λ state. state < length a.now.accept) stale.now }
    ensures refined { IfOk result (λ moved. IsRefined a.now refining.new (LeadsInto a.now moved.items)) }
    ensures within { IfOk result (λ moved. All (λ state. state < length a.now.accept) moved.items) }
    ensures count { IfOk result (λ moved. CountGrows refining.old.partition refining.new.partition moved.items) }
{
    remap_rows(
        &mut refining.diagrams,
        a,
        row_nodes(a),
        stale,
        refining.partition.classes.as_slice(),
        refining.led.as_mut_slice(),
        &mut refining.memo,
    )?;
    let moved = round(a, refining, stale)?;
    Ok(moved)
}

/// The first rounds, while many states move: each examines all states that share their class. Returns the states that moved last.
fn wide_rounds(alloc: Global, a: &Auto, refining: &mut Refining) -> Result<Vec<u32>, AllocError>
    requires { IsLedTo a.now refining.old }
    ensures refined { IfOk result (λ moved. IsRefined a.now refining.new (LeadsInto a.now moved.items)) }
    ensures within { IfOk result (λ moved. All (λ state. state < length a.now.accept) moved.items) }
{
    let many = a.states() as usize / 8;
    let stale = all_states(alloc, refining.led.len())?;
    let mut moved = round(a, refining, stale.as_slice())?;
    while moved.len() > many {
        let stale = sharing_states(alloc, &refining.partition, &refining.listing)?;
        moved = next_round(a, refining, stale.as_slice())?;
    }
    Ok(moved)
}

/// The later rounds, until no state moves: each examines the predecessors of the states that moved in the round before.
fn narrow_rounds(
    alloc: Global,
    a: &Auto,
    refining: &mut Refining,
    mut moved: Vec<u32>,
) -> Result<(), AllocError>
    requires refined { IsRefined a.now refining.old (LeadsInto a.now moved.items) }
    requires within { All (λ state. state < length a.now.accept) moved.items }
    ensures { OnOk result (IsRefined a.now refining.new (LeadsInto a.now [])) }
{
    if moved.is_empty() {
        return Ok(());
    }
    let ways = row_predecessors(alloc, a, row_nodes(a))?;
    while !moved.is_empty() {
        let stale = stale_states(
            alloc,
            a,
            &ways,
            &refining.partition,
            &refining.listing,
            moved.as_slice(),
        )?;
        moved = next_round(a, refining, stale.as_slice())?;
    }
    Ok(())
}

/// All rounds, until no state moves.
fn refine(alloc: Global, a: &Auto, refining: &mut Refining) -> Result<(), AllocError>
    requires { IsLedTo a.now refining.old }
    ensures { OnOk result (IsRefined a.now refining.new (LeadsInto a.now [])) }
{
    let moved = wide_rounds(alloc, a, refining)?;
    narrow_rounds(alloc, a, refining, moved)?;
    Ok(())
}

/// Returns the partition, and drops what only the rounds need.
fn partition_of(refining: Refining) -> Partition
    ensures { result ≡ refining.partition }
{
    refining.partition
}

/// Returns the partition whose classes are the sets of indistinguishable states (Moore 1956). Starts with the flags, and splits
/// classes by the classes of the next states until no class is split.
/// The first round maps all rows and examines all states. Later rounds examine states that share their class, and all states of a
/// class whose representative is one of them: while many states move, all that share their class, and then only the predecessors of
/// the states that moved in the round before. Only states that move are hashed. Errors: an allocation failed.
pub fn coarsest(alloc: Global, a: &Auto) -> Result<Partition, AllocError>
    ensures coarsest { IfOk result (λ p. IsCoarsest a.now p.classes.items p.count) }
    ensures valid { IsAutomaton a.now }
{
    let mut refining = start(alloc, a)?;
    refine(alloc, a, &mut refining)?;
    Ok(partition_of(refining))
}
