//! The canonical states that a row maps to and that no earlier row maps to.
ghost use Rattle.std.specs.Prelude.{[], ◌≡◌, ◌≢◌, ◌<◌, ℕ, true, false, length, slice_index_or, slice_set, IfOk, OnOk, AllPairs};
ghost use Rattle.letter_diagram.specs.Diagram.{map_at, top_track, Grows};
ghost use Rattle.auto_refine.specs.Leading.{entry_at};
ghost use Rattle.auto_reduce.specs.Unmet.{AddsRow, IsMetLeaf, IsPruned, RemembersPruned, StandsFor, WereRemoved, AreDone, AreDoneWith, AreDoneBut, Finds, canonical_at};

use crate::order::StateOrder;
use auto_refine::{RoundMemo, mapped_nodes};
use letter_diagram::{Diagrams, Node, NodeCache, Shape};
use limits::MOST_TRACKS;
use std::alloc::{AllocError, Global};
use std::marker::Model;

/// For each node of one `Diagrams`, by its number, whether it is done: it maps only to canonical states that are in the order.
#[derive(Drop)]
pub struct Done {
    nodes: Vec<bool>,
}

impl Model for Done {
    ghost use Rattle.std.specs.Prelude.{List, Bool};

    ghost Value = { List Bool };

    ghost view = { λ d. d.nodes.items };
}

impl Done {
    /// Returns no done nodes, with room for `nodes`.
    pub fn new(alloc: Global, nodes: usize) -> Result<Self, AllocError>
        ensures { IfOk result (λ done. (node : ℕ) → slice_index_or done node false ≡ false) }
    {
        Ok(Done {
            nodes: vec![in alloc; false; nodes]?,
        })
    }

    fn has(&self, node: Node) -> bool
        ensures { result ≡ slice_index_or self.now node false }
    {
        self.nodes.get(node.number()).copied().unwrap_or(false)
    }

    /// Marks a node as done, or drops it if it is at or above the capacity.
    fn add(&mut self, node: Node)
        ensures { self.new ≡ slice_set self.old node true }
    {
        if let Some(place) = self.nodes.get_mut(node.number()) {
            *place = true;
        }
    }

    fn remove(&mut self, node: Node)
        ensures { self.new ≡ slice_set self.old node false }
    {
        if let Some(place) = self.nodes.get_mut(node.number()) {
            *place = false;
        }
    }

    fn remove_all(&mut self, nodes: &[Node])
        ensures { WereRemoved nodes.now self.old self.new }
    {
        let _ = &self.nodes; // for its invariant
        for node in nodes {
            self.remove(*node);
        }
    }
}

/// Nodes of one `Diagrams` whose values are replaced by canonical states.
#[derive(Drop)]
pub struct CanonicalRows<'a> {
    pub from: &'a Diagrams,
    pub canon: &'a [u32],
}

/// The tables that one row passes to the next: the done nodes, a list of visited nodes, and a cache.
pub struct Kept {
    done: Done,
    passed: Vec<Node>,
    pub memo: RoundMemo,
}

impl Drop for Kept {
    /// Drops the tables. Written by hand, so that a function that drops them calls this instead of dropping each field.
    fn drop(self) {
        let Kept {
            done: _,
            passed: _,
            memo: _,
        } = self;
    }
}

impl Kept {
    /// Returns empty tables with room for `nodes`.
    pub fn new(alloc: Global, nodes: usize) -> Result<Self, AllocError>
        ensures { IfOk result (λ kept. (node : ℕ) → slice_index_or kept.done node false ≡ false) }
    {
        Ok(Kept {
            done: Done::new(alloc, nodes)?,
            passed: Vec::new(alloc),
            memo: RoundMemo::new(alloc, nodes)?,
        })
    }
}

/// States already in the order, and a leaf that represents all of them.
#[derive(Drop)]
struct VisitedStates<'a> {
    order: &'a StateOrder,
    leaf: Node,
}

/// The canonical states found that are not in the order.
#[derive(Clone, Copy)]
pub enum Unmet {
    Nothing,
    One(u32),
    Several,
}

/// Returns what was found together with one more state.
fn with_state(order: &StateOrder, found: Unmet, state: u32) -> Unmet
    ensures { Finds order.now found (λ letter. state) result }
{
    if order.has(state) {
        return found;
    }
    match found {
        Unmet::Nothing => Unmet::One(state),
        Unmet::One(other) if other == state => found,
        _ => Unmet::Several,
    }
}

/// Returns what was found together with the canonical states that a node maps to. Stops if several are found. Visited nodes are
/// listed and marked as done; if several are found they are not done. Costs the nodes that are not done.
fn unmet_states(
    rows: &CanonicalRows,
    node: Node,
    order: &StateOrder,
    found: Unmet,
    kept: &mut Kept,
) -> Result<Unmet, AllocError>
    requires known { node < length rows.now.from.now }
    requires leaves { (letter : ℕ) → map_at rows.now.from.now node letter < length rows.now.canon.now }
    requires done { AreDoneWith (canonical_at rows.now) order.now found kept.old.done }
    requires passed { AreDoneBut (canonical_at rows.now) order.now kept.old.passed.items kept.old.done }
    ensures finds { IfOk result (Finds order.now found (canonical_at rows.now node)) }
    ensures done { IfOk result (λ unmet. AreDoneWith (canonical_at rows.now) order.now unmet kept.new.done) }
    ensures passed { OnOk result (AreDoneBut (canonical_at rows.now) order.now kept.new.passed.items kept.new.done) }
{
    if let Unmet::Several = found {
        return Ok(Unmet::Several);
    }
    if kept.done.has(node) {
        return Ok(found);
    }
    let unmet = match rows.from.shape(node) {
        Shape::Leaf(state) => with_state(order, found, rows.canon[state as usize]),
        Shape::Test { low, high, .. } => {
            let low = unmet_states(rows, low, order, found, kept)?;
            unmet_states(rows, high, order, low, kept)?
        }
    };
    kept.passed.push(node)?;
    kept.done.add(node);
    Ok(unmet)
}

/// Returns the leaf of a state, or the representing leaf if the state is in the order.
fn pruned_leaf(met: &VisitedStates, to: &mut Diagrams, state: u32) -> Result<Node, AllocError>
    requires { IsMetLeaf to.old met.now.order.now met.now.leaf }
    ensures known { IfOk result (λ leaf. leaf < length to.new) }
    ensures top { IfOk result (λ leaf. top_track to.new leaf ≡ MOST_TRACKS) }
    ensures map { IfOk result (λ leaf. (letter : ℕ) → StandsFor met.now.order.now (map_at to.new leaf letter) state) }
    ensures grows { Grows to.old to.new }
{
    if met.order.has(state) {
        return Ok(met.leaf);
    }
    let leaf = to.leaf(state)?;
    Ok(leaf)
}

/// Returns the node in `to` of a row mapped to canonical states, where one state of the order may replace another. Nodes that map
/// only to such states are marked as done, and are represented by the leaf of such a state from then on.
fn pruned(
    rows: &CanonicalRows,
    node: Node,
    met: &VisitedStates,
    to: &mut Diagrams,
    kept: &mut Kept,
) -> Result<Node, AllocError>
    requires known { node < length rows.now.from.now }
    requires leaves { (letter : ℕ) → map_at rows.now.from.now node letter < length rows.now.canon.now }
    requires met { IsMetLeaf to.old met.now.order.now met.now.leaf }
    requires remembered { RemembersPruned rows.now to.old met.now.order.now kept.old.memo }
    requires done { AreDone (canonical_at rows.now) met.now.order.now kept.old.done }
    ensures pruned { IfOk result (IsPruned rows.now to.new met.now.order.now node) }
    ensures remembered { OnOk result (RemembersPruned rows.now to.new met.now.order.now kept.new.memo) }
    ensures done { OnOk result (AreDone (canonical_at rows.now) met.now.order.now kept.new.done) }
    ensures grows { Grows to.old to.new }
{
    let shape = rows.from.shape(node);
    if kept.done.has(node) {
        return Ok(met.leaf);
    }
    if let Some(made) = kept.memo.answer(node) {
        return Ok(made);
    }
    let made = match shape {
        Shape::Leaf(state) => pruned_leaf(met, to, rows.canon[state as usize])?,
        Shape::Test { track, low, high } => {
            let low = pruned(rows, low, met, to, kept)?;
            let high = pruned(rows, high, met, to, kept)?;
            to.node(track, low, high)?
        }
    };
    kept.memo.remember(node, made)?;
    if to.same_map(made, met.leaf) {
        kept.done.add(node);
    }
    Ok(made)
}

/// Does the same as `add_row`, with a diagram in which the states of the order may replace one another.
fn add_several(
    alloc: Global,
    rows: &CanonicalRows,
    row: Node,
    order: &mut StateOrder,
    kept: &mut Kept,
) -> Result<(), AllocError>
    requires known { row < length rows.now.from.now }
    requires leaves { (letter : ℕ) → map_at rows.now.from.now row letter < length rows.now.canon.now }
    requires some { 0 < length order.old }
    requires done { AreDone (canonical_at rows.now) order.old kept.old.done }
    ensures adds { OnOk result (AddsRow (canonical_at rows.now row) order.old order.new) }
    ensures different { OnOk result (AllPairs (λ j k. j ≢ k) order.new) }
    ensures done { OnOk result (AreDone (canonical_at rows.now) order.new kept.new.done) }
{
    let mut to = Diagrams::with_capacity(alloc, kept.passed.len())?;
    let leaf = to.leaf(order.as_slice()[0])?;
    kept.memo.clear();
    let unmet = pruned(rows, row, &VisitedStates { order, leaf }, &mut to, kept)?;
    let leaves = to.leaves(unmet)?;
    order.add_all(leaves.as_slice())?;
    Ok(())
}

/// Appends the canonical states that a row maps to and that are not in the order, by their least letters. Builds a diagram only if
/// there are several. Costs the nodes of the row that are not done.
pub(crate) fn add_row(
    alloc: Global,
    rows: &CanonicalRows,
    row: Node,
    order: &mut StateOrder,
    kept: &mut Kept,
) -> Result<(), AllocError>
    requires known { row < length rows.now.from.now }
    requires leaves { (letter : ℕ) → map_at rows.now.from.now row letter < length rows.now.canon.now }
    requires some { 0 < length order.old }
    requires done { AreDone (canonical_at rows.now) order.old kept.old.done }
    ensures adds { OnOk result (AddsRow (canonical_at rows.now row) order.old order.new) }
    ensures different { OnOk result (AllPairs (λ j k. j ≢ k) order.new) }
    ensures done { OnOk result (AreDone (canonical_at rows.now) order.new kept.new.done) }
{
    let _ = order.as_slice(); // for its invariant
    kept.passed.clear();
    let unmet = unmet_states(rows, row, order, Unmet::Nothing, kept)?;
    match unmet {
        Unmet::Nothing => Ok(()),
        Unmet::One(state) => {
            order.add(state)?;
            Ok(())
        }
        Unmet::Several => {
            kept.done.remove_all(kept.passed.as_slice());
            add_several(alloc, rows, row, order, kept)?;
            Ok(())
        }
    }
}

/// Returns the canonical states that the first row maps to, by their least letters.
pub(crate) fn first_met(
    alloc: Global,
    from: &Diagrams,
    row: Node,
    canon: &[u32],
    memo: &mut RoundMemo,
) -> Result<StateOrder, AllocError>
    requires known { row < length from.now }
    requires leaves { (letter : ℕ) → map_at from.now row letter < length canon.now }
    ensures adds { IfOk result (AddsRow (entry_at canon.now from.now row) []) }
    ensures different { IfOk result (AllPairs (λ j k. j ≢ k)) }
{
    let mut order = StateOrder::new(alloc);
    let mut to = Diagrams::new(alloc);
    let led = mapped_nodes(from, &[row], canon, &mut to, memo)?;
    let leaves = to.leaves(led[0])?;
    order.add_all(leaves.as_slice())?;
    Ok(order)
}
