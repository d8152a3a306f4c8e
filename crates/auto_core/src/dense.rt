//! Automata from dense tables.
ghost use Rattle.std.specs.Prelude.{◌≡◌, ◌<◌, ◌≤◌, ◌^◌, ◌*◌, ℕ, length, IfOk};
ghost use Rattle.std.specs.List.{Contains};
ghost use Rattle.letter_diagram.specs.Diagram.{map_at, Grows, LooksBelow, top_track};
ghost use Rattle.auto_core.specs.Automaton.{IsAutomaton};
ghost use Rattle.auto_core.specs.Rows.{row_of, AreTables};
ghost use Rattle.auto_core.specs.Dense.{IsRowFrom, IsPartFrom, AreRowsFrom};

use crate::auto::Auto;
use letter_diagram::{Diagrams, Node};
use limits::MOST_TRACKS;
use std::alloc::{AllocError, Global};
use track_word::Var;

impl Auto {
    /// Returns the automaton of dense tables. `first` has a state for each sign letter, `next` a row of states for each state, one
    /// after another, and `accept` a flag for each state.
    pub fn from_rows(
        alloc: Global,
        tracks: Vec<Var>,
        first: Vec<u32>,
        next: Vec<u32>,
        accept: Vec<bool>,
    ) -> Result<Auto, AllocError>
        requires { AreTables tracks.items first.items next.items accept.items }
        ensures tracks { IfOk result (λ a. a.tracks ≡ tracks.items) }
        ensures first { IfOk result (λ a. a.first ≡ first.items) }
        ensures next { IfOk result (λ a. a.next ≡ next.items) }
        ensures accept { IfOk result (λ a. a.accept ≡ accept.items) }
        ensures valid { IfOk result (λ a. IsAutomaton a) }
    {
        let count = tracks.len() as u8;
        let mut diagrams = Diagrams::new(alloc);
        let row_nodes = nodes_of_rows(alloc, &mut diagrams, next.as_slice(), count, accept.len())?;
        let first_node = node_of_row(&mut diagrams, first.as_slice(), count)?;
        Ok(Auto::from_diagrams(tracks, diagrams, first_node, row_nodes, accept))
    }
}

/// Returns the nodes of the rows of a table, in order.
fn nodes_of_rows(
    alloc: Global,
    diagrams: &mut Diagrams,
    table: &[u32],
    tracks: u8,
    count: usize,
) -> Result<Vec<Node>, AllocError>
    requires few { tracks ≤ MOST_TRACKS }
    requires size { length table.now ≡ count * 2 ^ tracks }
    ensures nodes { IfOk result (λ nodes. AreRowsFrom diagrams.new (2 ^ tracks) table.now nodes.items) }
    ensures count { IfOk result (λ nodes. length nodes.items ≡ count) }
    ensures grows { Grows diagrams.old diagrams.new }
{
    let width = 1usize << tracks;
    let mut nodes = Vec::new(alloc);
    for state in 0..count {
        let start = state * width;
        let node = node_of_row(diagrams, &table[start..start + width], tracks)?;
        nodes.push(node)?;
    }
    Ok(nodes)
}

/// Returns the node of a dense row: `table` has an entry for each letter over `tracks` tracks, in the order of the letters.
pub fn node_of_row(diagrams: &mut Diagrams, table: &[u32], tracks: u8) -> Result<Node, AllocError>
    requires few { tracks ≤ MOST_TRACKS }
    requires size { length table.now ≡ 2 ^ tracks }
    ensures row { IfOk result (λ node. IsRowFrom diagrams.new (2 ^ tracks) table.now 0 node) }
    ensures entries { IfOk result (λ node. row_of diagrams.new (2 ^ tracks) node ≡ table.now) }
    ensures narrow { IfOk result (λ node. LooksBelow diagrams.new node tracks) }
    ensures leaves { IfOk result (λ node. (letter : ℕ) → Contains table.now (map_at diagrams.new node letter)) }
    ensures grows { Grows diagrams.old diagrams.new }
{
    let node = node_from(diagrams, table, tracks, 0, 0)?;
    Ok(node)
}

/// Returns the node of the entries of a dense row from an offset on, by the tracks from `track` on.
fn node_from(
    diagrams: &mut Diagrams,
    table: &[u32],
    tracks: u8,
    track: u8,
    offset: usize,
) -> Result<Node, AllocError>
    requires few { tracks ≤ MOST_TRACKS }
    requires track { track ≤ tracks }
    requires size { length table.now ≡ 2 ^ tracks }
    requires offset { offset < 2 ^ track }
    ensures part { IfOk result (λ node. IsPartFrom diagrams.new tracks table.now track offset node) }
    ensures grows { Grows diagrams.old diagrams.new }
{
    if track == tracks {
        let node = diagrams.leaf(table[offset])?;
        return Ok(node);
    }
    let low = node_from(diagrams, table, tracks, track + 1, offset)?;
    let high = node_from(
        diagrams,
        table,
        tracks,
        track + 1,
        offset + (1usize << track),
    )?;
    let node = diagrams.node(track, low, high)?;
    Ok(node)
}
