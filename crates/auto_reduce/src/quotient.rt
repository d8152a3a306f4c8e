//! The automaton over one state of each class.
ghost use Rattle.std.specs.Prelude.{◌≡◌, ◌≤◌, ◌<◌, ◌+◌, ◌≢◌, ℕ, IfOk, false, length, slice_index_or, All, AllPairs};
ghost use Rattle.auto_core.specs.Automaton.{IsAutomaton};
ghost use Rattle.auto_core.specs.Reduced.{IsReduced};
ghost use Rattle.auto_reduce.specs.Quotient.{IsCanonical, IsOrder, AreNumbers, AreClassNumbers, ArePlaces, AreFirstAndPicked, AreRowsOver, IsOverRows, IsQuotientBy};
ghost use Rattle.auto_reduce.specs.Numbering.{IsNumberedTo, IsNumberedBreadthFirst, IsQuotient};
ghost use Rattle.auto_core.specs.Words.{HasSameWords};

use crate::canonical::canonical;
use crate::order::StateOrder;
use crate::unmet::{CanonicalRows, Kept, add_row, first_met};
use auto_core::Auto;
use auto_refine::{RoundMemo, flags, mapped_nodes, picked};
use letter_diagram::{Diagrams, Node};
use std::alloc::{AllocError, Global};

/// Returns the canonical states that words reach, in the order of a breadth-first traversal by ascending letters.
fn breadth_first(
    alloc: Global,
    a: &Auto,
    canon: &[u32],
    kept: &mut Kept,
) -> Result<StateOrder, AllocError>
    requires canonical { IsCanonical a.now canon.now }
    requires done { (node : ℕ) → slice_index_or kept.old.done node false ≡ false }
    ensures order { IfOk result (λ order. IsOrder a.now canon.now order) }
    ensures numbered { IfOk result (λ order. IsNumberedTo a.now canon.now order (length order + 1)) }
{
    let from = a.diagrams();
    let mut order = first_met(alloc, from, a.first_node(), canon, &mut kept.memo)?;
    let rows = CanonicalRows { from, canon };
    let mut place = 0;
    while place < order.as_slice().len() {
        let row = a.row_node(order.as_slice()[place]);
        add_row(alloc, &rows, row, &mut order, kept)?;
        place += 1;
    }
    Ok(order)
}

/// Returns the automaton whose states are the indices in an order of canonical states.
fn over_places(
    alloc: Global,
    a: &Auto,
    canon: &[u32],
    order: &[u32],
    memo: &mut RoundMemo,
) -> Result<Auto, AllocError>
    requires canonical { IsCanonical a.now canon.now }
    requires order { IsOrder a.now canon.now order.now }
    ensures { IfOk result (IsQuotientBy a.now canon.now order.now) }
{
    let states = a.states();
    let from = a.diagrams();
    let table = place_table(alloc, canon, order, states)?;
    let nodes = first_and_picked(alloc, a, order)?;
    let room = nodes_left(from.len(), states, order.len());
    let mut diagrams = Diagrams::with_capacity(alloc, room)?;
    let rows = mapped_nodes(
        from,
        nodes.as_slice(),
        table.as_slice(),
        &mut diagrams,
        memo,
    )?;
    let m = over_rows(alloc, a, order, diagrams, rows)?;
    Ok(m)
}

/// Returns for each state the index of its canonical state in an order.
fn place_table(
    alloc: Global,
    canon: &[u32],
    order: &[u32],
    states: u32,
) -> Result<Vec<u32>, AllocError>
    requires canon { All (λ state. state < states) canon.now }
    requires below { All (λ state. state < states) order.now }
    requires different { AllPairs (λ j k. j ≢ k) order.now }
    requires some { 0 < length order.now }
    requires few { length order.now ≤ states }
    ensures { IfOk result (λ table. ArePlaces canon.now order.now states table.items) }
{
    let numbers = numbers(alloc, order, states)?;
    let table = class_numbers(alloc, canon, numbers.as_slice())?;
    Ok(table)
}

/// Builds the automaton whose first row is `rows[0]` and whose state rows are `rows[1..]`, with the flags of an order's states.
fn over_rows(
    alloc: Global,
    a: &Auto,
    order: &[u32],
    diagrams: Diagrams,
    mut rows: Vec<Node>,
) -> Result<Auto, AllocError>
    requires order { All (λ state. state < length a.now.accept) order.now }
    requires some { 0 < length rows.items }
    requires rows { AreRowsOver a.now order.now diagrams rows.items }
    ensures { IfOk result (IsOverRows a.now order.now diagrams rows.items) }
{
    let accept = flags(alloc, a, order)?;
    let tracks = a.tracks().to_vec(alloc)?;
    let first = rows.remove(0);
    Ok(Auto::from_diagrams(tracks, diagrams, first, rows, accept))
}

/// Estimates the number of nodes that remain if this many states remain: the same proportion, and at most all.
fn nodes_left(nodes: usize, states: u32, states_left: usize) -> usize
    requires { 0 < states }
    ensures { result ≤ nodes }
{
    let share = nodes.saturating_mul(states_left) / states as usize;
    share.min(nodes)
}

/// Returns the node of the first row, followed by those of the rows of some states.
fn first_and_picked(alloc: Global, a: &Auto, order: &[u32]) -> Result<Vec<Node>, AllocError>
    requires { All (λ state. state < length a.now.row_nodes) order.now }
    ensures { IfOk result (λ nodes. AreFirstAndPicked a.now order.now nodes.items) }
{
    let picked = picked(alloc, a.row_nodes(), order)?;
    let mut nodes = vec![in alloc; a.first_node()]?;
    nodes.extend_from_slice(picked.as_slice())?;
    Ok(nodes)
}

/// Returns for each state its index in an order, or 0 if it has none.
fn numbers(alloc: Global, order: &[u32], states: u32) -> Result<Vec<u32>, AllocError>
    requires below { All (λ state. state < states) order.now }
    requires different { AllPairs (λ j k. j ≢ k) order.now }
    requires some { 0 < length order.now }
    requires few { length order.now ≤ states }
    ensures { IfOk result (λ numbers. AreNumbers order.now states numbers.items) }
{
    let mut numbers = vec![in alloc; 0u32; states as usize]?;
    for place in 0..order.len() {
        numbers[order[place] as usize] = place as u32;
    }
    Ok(numbers)
}

/// Returns for each state the number of its canonical state.
fn class_numbers(alloc: Global, canon: &[u32], numbers: &[u32]) -> Result<Vec<u32>, AllocError>
    requires { All (λ state. state < length numbers.now) canon.now }
    ensures { IfOk result (λ table. AreClassNumbers canon.now numbers.now table.items) }
{
    let mut table = Vec::with_capacity(alloc, canon.len())?;
    for state in canon {
        table.push(numbers[*state as usize])?;
    }
    Ok(table)
}

/// Returns the minimal automaton of the same words (Moore 1956), with its states numbered in breadth-first order by ascending
/// letters.
/// While more than an eighth of the states move, a round of the refinement costs the nodes of the rows of all states that share
/// their class. After that it costs the nodes of the rows of those among them that are predecessors of a state that moved in the
/// round before, and a mark for each state and each node. The numbering costs the nodes of one row of each class. The result has no
/// unreachable nodes. Errors: an allocation failed.
pub fn reduce(alloc: Global, a: &Auto) -> Result<Auto, AllocError>
    ensures tracks { IfOk result (λ m. m.tracks ≡ a.now.tracks) }
    ensures words { IfOk result (HasSameWords a.now) }
    ensures reduced { IfOk result IsReduced }
    ensures numbered { IfOk result IsNumberedBreadthFirst }
    ensures fewer { IfOk result (λ m. length m.accept ≤ length a.now.accept) }
    ensures valid { IfOk result IsAutomaton }
{
    let m = quotient(alloc, a)?;
    Ok(m)
}

/// Returns the automaton whose states are the canonical states, in breadth-first order.
fn quotient(alloc: Global, a: &Auto) -> Result<Auto, AllocError>
    ensures { IfOk result (IsQuotient a.now) }
{
    let canon = canonical(alloc, a)?;
    let mut kept = Kept::new(alloc, a.diagrams().len())?;
    let order = breadth_first(alloc, a, canon.as_slice(), &mut kept)?;
    let m = over_places(alloc, a, canon.as_slice(), order.as_slice(), &mut kept.memo)?;
    Ok(m)
}
