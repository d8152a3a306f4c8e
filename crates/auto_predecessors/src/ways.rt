//! Rows' nodes, numbered so that each follows the nodes that it maps to, and predecessor lists from states back to rows.
ghost use Rattle.std.specs.Prelude.{◌≡◌, ◌<◌, ◌++◌, ◌∷◌, [], ℕ, true, false, length, All, Contains, slice_index_or, slice_set, Some, IfOk, OnOk};
ghost use Rattle.letter_diagram.specs.Diagram.{map_at};
ghost use Rattle.auto_predecessors.specs.RowNodes.{AreRowNodes};
ghost use Rattle.auto_predecessors.specs.Ways.{FitsAt, AreWays, KeepsWays, IsPlaced, RemembersPlaced, ArePlacedRows, AreRowWays, AreWaysUp, AreOwners, IsLinked, AddsListed, AreListedBelow, MarksMore, AreStarted, KeepsMarks, AreClimbed, AreOwnersBelow, AreLeading};

use auto_core::Auto;
use letter_diagram::{Diagrams, Node, Shape};
use smallvec::SmallVec;
use std::alloc::{AllocError, Global};

/// A list of node numbers, mostly short.
type Places = SmallVec<usize, 2>;

/// A list of states, mostly short.
type States = SmallVec<u32, 2>;

/// The successors of a node.
#[derive(Clone, Copy)]
enum PlaceTarget {
    /// A state: the node is a leaf.
    State(u32),
    /// Two nodes with smaller numbers: the node is a test.
    Both(usize, usize),
}

/// The predecessor lists from the states to the rows that reach them. The rows' nodes have numbers of their own (places).
pub struct Predecessors {
    /// For each place, the places of its direct predecessors.
    pub above: Vec<Places>,
    /// For each place, the states whose row it is.
    pub owners: Vec<States>,
    /// For each state, the places of its leaves' direct predecessors.
    pub leaves: Vec<Places>,
}

impl Drop for Predecessors {
    /// Drops the lists. Written by hand, so that a function that drops predecessor lists calls this instead of dropping each field.
    fn drop(self) {
        let Predecessors {
            above: _,
            owners: _,
            leaves: _,
        } = self;
    }
}

/// Assigns the next place to a node. Errors: an allocation failed, or there are 2^32 places.
fn place_next(
    node: Node,
    way: PlaceTarget,
    ways: &mut Vec<PlaceTarget>,
    places: &mut [Option<u32>],
) -> Result<usize, AllocError>
    requires { node < length places.old }
    ensures place { IfOk result (λ place. place ≡ length ways.old.items) }
    ensures ways { OnOk result (ways.new.items ≡ ways.old.items ++ way ∷ []) }
    ensures places { OnOk result (places.new ≡ slice_set places.old node (Some (length ways.old.items))) }
{
    let place = ways.len();
    if place > u32::MAX as usize {
        return Err(AllocError);
    }
    ways.push(way)?;
    places[node.number()] = Some(place as u32);
    Ok(place)
}

/// Returns the place of a node, and assigns one if it has none.
fn place_of(
    diagrams: &Diagrams,
    node: Node,
    states: u32,
    ways: &mut Vec<PlaceTarget>,
    places: &mut [Option<u32>],
) -> Result<usize, AllocError>
    requires known { node < length diagrams.now }
    requires leaves { (letter : ℕ) → map_at diagrams.now node letter < states }
    requires remembered { RemembersPlaced states diagrams.now ways.old.items places.old }
    ensures placed { IfOk result (λ place. IsPlaced diagrams.now ways.new.items node place) }
    ensures remembered { OnOk result (RemembersPlaced states diagrams.now ways.new.items places.new) }
    ensures kept { OnOk result (KeepsWays ways.old.items ways.new.items) }
{
    if let Some(place) = places[node.number()] {
        return Ok(place as usize);
    }
    match diagrams.shape(node) {
        Shape::Leaf(state) => {
            let place = place_next(node, PlaceTarget::State(state), ways, places)?;
            Ok(place)
        }
        Shape::Test { low, high, .. } => {
            let low = place_of(diagrams, low, states, ways, places)?;
            let high = place_of(diagrams, high, states, ways, places)?;
            let place = place_next(node, PlaceTarget::Both(low, high), ways, places)?;
            Ok(place)
        }
    }
}

/// Returns the place of each row, in the order of the states. A shared node has one place.
fn place_rows(
    alloc: Global,
    a: &Auto,
    rows: &[Node],
    ways: &mut Vec<PlaceTarget>,
) -> Result<Vec<usize>, AllocError>
    requires rows { AreRowNodes a.now rows.now }
    requires none { ways.old.items ≡ [] }
    ensures { IfOk result (λ found. ArePlacedRows a.now ways.new.items found.items) }
{
    let mut places = vec![in alloc; None; a.diagrams().len()]?;
    let mut found = Vec::with_capacity(alloc, rows.len())?;
    for node in rows {
        let place = place_of(a.diagrams(), *node, a.states(), ways, places.as_mut_slice())?;
        found.push(place)?;
    }
    Ok(found)
}

/// Returns empty lists.
fn no_lists<T: Drop + Default>(
    alloc: Global,
    count: usize,
) -> Result<Vec<SmallVec<T, 2>>, AllocError>
    ensures size { IfOk result (λ lists. length lists.items ≡ count) }
    ensures none { IfOk result (λ lists. All (λ list. list.items ≡ []) lists.items) }
{
    let mut lists = Vec::with_capacity(alloc, count)?;
    for _ in 0..count {
        lists.push(SmallVec::new(alloc))?;
    }
    Ok(lists)
}

/// Adds a place to the lists of its successors.
fn link(
    way: PlaceTarget,
    place: usize,
    above: &mut [Places],
    leaves: &mut [Places],
) -> Result<(), AllocError>
    requires { FitsAt (length leaves.old) (length above.old) way }
    ensures linked { OnOk result (IsLinked above.new leaves.new place way) }
    ensures above { OnOk result (AddsListed above.old above.new place) }
    ensures leaves { OnOk result (AddsListed leaves.old leaves.new place) }
{
    match way {
        PlaceTarget::State(state) => leaves[state as usize].push(place)?,
        PlaceTarget::Both(low, high) => {
            above[low].push(place)?;
            above[high].push(place)?;
        }
    }
    Ok(())
}

fn link_all(
    ways: &[PlaceTarget],
    above: &mut [Places],
    leaves: &mut [Places],
) -> Result<(), AllocError>
    requires ways { AreWays (length leaves.old) ways.now }
    requires size { length above.old ≡ length ways.now }
    requires above { AreListedBelow above.old 0 }
    requires leaves { AreListedBelow leaves.old 0 }
    ensures { OnOk result (AreWaysUp ways.now above.new leaves.new) }
{
    for place in 0..ways.len() {
        link(ways[place], place, above, leaves)?;
    }
    Ok(())
}

/// Adds each state to the list of its row's place.
fn own_all(rows: &[usize], states: u32, owners: &mut [States]) -> Result<(), AllocError>
    requires within { All (λ place. place < length owners.old) rows.now }
    requires states { length rows.now ≡ states }
    requires none { AreListedBelow owners.old 0 }
    ensures { OnOk result (AreOwners rows.now owners.new) }
{
    for state in 0..states {
        owners[rows[state as usize]].push(state)?;
    }
    Ok(())
}

/// Returns the predecessor lists of an automaton's rows. Costs the nodes reachable from the rows, and an entry for each node of the
/// automaton. Errors: an allocation failed.
pub fn row_predecessors(alloc: Global, a: &Auto, rows: &[Node]) -> Result<Predecessors, AllocError>
    requires { AreRowNodes a.now rows.now }
    ensures { IfOk result (AreRowWays a.now) }
{
    let mut ways = Vec::new(alloc);
    let rows = place_rows(alloc, a, rows, &mut ways)?;
    let mut above = no_lists(alloc, ways.len())?;
    let mut leaves = no_lists(alloc, a.states() as usize)?;
    link_all(ways.as_slice(), above.as_mut_slice(), leaves.as_mut_slice())?;
    let mut owners = no_lists(alloc, ways.len())?;
    own_all(rows.as_slice(), a.states(), owners.as_mut_slice())?;
    Ok(Predecessors {
        above,
        owners,
        leaves,
    })
}

/// Marks an unmarked place, and adds it to the worklist.
fn mark(place: usize, marks: &mut [bool], waiting: &mut Vec<usize>) -> Result<(), AllocError>
    requires { place < length marks.old }
    ensures marked { OnOk result (slice_index_or marks.new place false ≡ true) }
    ensures more { OnOk result (MarksMore marks.old waiting.old.items marks.new waiting.new.items) }
{
    if !marks[place] {
        waiting.push(place)?;
        marks[place] = true;
    }
    Ok(())
}

fn mark_all(
    places: &[usize],
    marks: &mut [bool],
    waiting: &mut Vec<usize>,
) -> Result<(), AllocError>
    requires { All (λ place. place < length marks.old) places.now }
    ensures marked { OnOk result (All (λ place. slice_index_or marks.new place false ≡ true) places.now) }
    ensures more { OnOk result (MarksMore marks.old waiting.old.items marks.new waiting.new.items) }
{
    for place in places {
        mark(*place, marks, waiting)?;
    }
    Ok(())
}

/// Marks the places that map directly to some states.
fn mark_leaves(
    states: &[u32],
    leaves: &[Places],
    marks: &mut [bool],
    waiting: &mut Vec<usize>,
) -> Result<(), AllocError>
    requires states { All (λ state. state < length leaves.now) states.now }
    requires leaves { AreListedBelow leaves.now (length marks.old) }
    ensures started { OnOk result (AreStarted states.now leaves.now marks.new) }
    ensures more { OnOk result (MarksMore marks.old waiting.old.items marks.new waiting.new.items) }
{
    for state in states {
        mark_all(leaves[*state as usize].as_slice(), marks, waiting)?;
    }
    Ok(())
}

/// Marks all predecessors of the places in the worklist, and returns the states whose rows are marked. Each place is in the
/// worklist once.
fn climb(
    alloc: Global,
    above: &[Places],
    owners: &[States],
    marks: &mut [bool],
    mut waiting: Vec<usize>,
) -> Result<Vec<u32>, AllocError>
    requires above_size { length above.now ≡ length marks.old }
    requires owners_size { length owners.now ≡ length marks.old }
    requires above { AreListedBelow above.now (length marks.old) }
    requires within { All (λ place. place < length marks.old) waiting.items }
    requires waits { (place : ℕ) → slice_index_or marks.old place false ≡ true → Contains waiting.items place }
    ensures climbed { IfOk result (λ found. AreClimbed above.now owners.now marks.new [] found.items) }
    ensures kept { OnOk result (KeepsMarks marks.old marks.new) }
    ensures within { IfOk result (λ found. AreOwnersBelow owners.now found.items) }
{
    let mut found = Vec::new(alloc);
    while let Some(place) = waiting.pop() {
        found.extend_from_slice(owners[place].as_slice())?;
        mark_all(above[place].as_slice(), marks, &mut waiting)?;
    }
    Ok(found)
}

/// Returns the states whose rows reach one of some states, given marks that are all unset.
fn climb_from(
    alloc: Global,
    a: &Auto,
    ways: &Predecessors,
    states: &[u32],
    marks: &mut [bool],
) -> Result<Vec<u32>, AllocError>
    requires ways { AreRowWays a.now ways.now }
    requires states { All (λ state. state < length a.now.accept) states.now }
    requires size { length marks.old ≡ length ways.now.above.items }
    requires off { (place : ℕ) → slice_index_or marks.old place false ≡ false }
    ensures { IfOk result (λ found. AreLeading a.now states.now found.items) }
{
    let mut waiting = Vec::new(alloc);
    mark_leaves(states, ways.leaves.as_slice(), marks, &mut waiting)?;
    let found = climb(
        alloc,
        ways.above.as_slice(),
        ways.owners.as_slice(),
        marks,
        waiting,
    )?;
    Ok(found)
}

/// Returns the states whose rows reach one of `states`, that is, their predecessors. Costs the predecessors' places, and a mark for
/// each place. Errors: an allocation failed.
pub fn predecessors_of(
    alloc: Global,
    a: &Auto,
    ways: &Predecessors,
    states: &[u32],
) -> Result<Vec<u32>, AllocError>
    requires ways { AreRowWays a.now ways.now }
    requires within { All (λ state. state < length a.now.accept) states.now }
    ensures { IfOk result (λ found. AreLeading a.now states.now found.items) }
{
    let mut marks = vec![in alloc; false; ways.above.len()]?;
    let found = climb_from(alloc, a, ways, states, marks.as_mut_slice())?;
    Ok(found)
}
