//! Steps that make a node.

ghost use Rattle.std.specs.Prelude.{◌≡◌, ◌<◌, ℕ, All, IsTrue, IfOk, length};
ghost use Rattle.letter_diagram.specs.Diagram.{map_at};

use crate::bench::{Bench, track};
use diagram_product::apply2;
use letter_diagram::laws::a_map_looks_from_its_top_track;
use letter_diagram::{Diagrams, Node};
use limits::MOST_TRACKS;
use trial_rows::{Row, RowError};

/// The most pairs or sets that a row may number.
const MOST_NUMBERED: usize = 1000000;

/// Performs a step that makes a node and returns the node. Returns `None` for any other step.
pub fn make(bench: &mut Bench, word: &str, row: &mut Row) -> Result<Option<Node>, RowError> {
    match word {
        "leaf" => leaf(bench, row),
        "node" => test_node(bench, row),
        "choose" => choice(bench, row),
        "apply2" => pairs_node(bench, row),
        "merge" => merged(bench, row),
        "map" => mapped(bench, row),
        "relabel" => relabelled(bench, row),
        _ => Ok(None),
    }
}

/// `leaf VALUE`: the constant map.
fn leaf(bench: &mut Bench, row: &mut Row) -> Result<Option<Node>, RowError> {
    let value = row.number::<u32>()?;
    Ok(Some(bench.diagrams.leaf(value)?))
}

/// `node TRACK LOW HIGH`: both maps look only at later tracks.
fn test_node(bench: &mut Bench, row: &mut Row) -> Result<Option<Node>, RowError> {
    let track = track(row)?;
    let (low, high) = bench.two_nodes(row)?;
    if bench.diagrams.top(low) <= track || bench.diagrams.top(high) <= track {
        return Err(RowError::Condition);
    }
    Ok(Some(bench.diagrams.node(track, low, high)?))
}

/// `choose TRACK LOW HIGH`: the maps may look at any tracks.
fn choice(bench: &mut Bench, row: &mut Row) -> Result<Option<Node>, RowError> {
    let track = track(row)?;
    let (low, high) = bench.two_nodes(row)?;
    Ok(Some(bench.diagrams.choose(track, low, high)?))
}

/// `apply2 NODE NODE`: the map of the pairs' numbers.
fn pairs_node(bench: &mut Bench, row: &mut Row) -> Result<Option<Node>, RowError> {
    let (left, right) = bench.two_nodes(row)?;
    if bench.pairs.len() > MOST_NUMBERED {
        return Err(RowError::Condition);
    }
    Ok(Some(apply2(&mut bench.diagrams, left, right, &mut bench.pairs)?))
}

/// Whether each number is below a bound.
fn are_below(numbers: &[u32], bound: usize) -> bool
    ensures { IsTrue result → All (λ number. number < bound) numbers.now }
{
    numbers.iter().all(|number| (*number as usize) < bound)
}

/// Whether all values of a node's map are below a bound.
fn is_below(diagrams: &Diagrams, node: Node, bound: usize) -> Result<bool, RowError>
    requires { node < length diagrams.now }
    ensures { IfOk result (λ below. IsTrue below → (letter : ℕ) → map_at diagrams.now node letter < bound) }
{
    let values = diagrams.leaves(node)?;
    let below = are_below(values.as_slice(), bound);
    Ok(below)
}

/// `merge TRACK NODE`: the map of the numbers of unions.
fn merged(bench: &mut Bench, row: &mut Row) -> Result<Option<Node>, RowError> {
    let track = track(row)?;
    let node = bench.node(row)?;
    let count = bench.sets.len();
    if count > MOST_NUMBERED || !is_below(&bench.diagrams, node, count)? {
        return Err(RowError::Condition);
    }
    Ok(Some(bench.diagrams.merge_track(node, track, &mut bench.sets)?))
}

/// `map TABLE NODE`: the map of the table's entries.
fn mapped(bench: &mut Bench, row: &mut Row) -> Result<Option<Node>, RowError> {
    let table = row.numbers::<u32>()?;
    let node = bench.node(row)?;
    if !is_below(&bench.diagrams, node, table.len())? {
        return Err(RowError::Condition);
    }
    Ok(Some(bench.diagrams.map_leaves(node, table.as_slice())?))
}

/// The map on the letters with the bits of these tracks.
fn relabel(diagrams: &mut Diagrams, node: Node, tracks: &[u8]) -> Result<Node, RowError>
    requires known { node < length diagrams.old }
    requires count { length tracks.now ≡ MOST_TRACKS }
    requires tracks { All (λ track. track < MOST_TRACKS) tracks.now }
{
    a_map_looks_from_its_top_track();
    let _ = diagrams.alloc();
    Ok(diagrams.relabel(node, tracks)?)
}

/// Parses the tracks of the next field. A track after the list's end is itself.
fn tracks(row: &mut Row) -> Result<Vec<u8>, RowError> {
    let mut tracks = row.numbers::<u8>()?;
    for track in 0..MOST_TRACKS {
        if tracks.len() <= track as usize {
            tracks.push(track)?;
        }
    }
    Ok(tracks)
}

/// Whether each is a track, and there is one for each track.
fn are_tracks(tracks: &[u8]) -> bool
    ensures count { IsTrue result → length tracks.now ≡ MOST_TRACKS }
    ensures tracks { IsTrue result → All (λ track. track < MOST_TRACKS) tracks.now }
{
    tracks.len() == MOST_TRACKS as usize && tracks.iter().all(|track| *track < MOST_TRACKS)
}

/// Runs `relabel TRACKS NODE`: the map whose tracks take their bits from these. A track after the list's end keeps its
/// own.
fn relabelled(bench: &mut Bench, row: &mut Row) -> Result<Option<Node>, RowError> {
    let tracks = tracks(row)?;
    let node = bench.node(row)?;
    if !are_tracks(tracks.as_slice()) {
        return Err(RowError::Condition);
    }
    Ok(Some(relabel(&mut bench.diagrams, node, tracks.as_slice())?))
}
