//! The rows of an automaton over the remaining tracks, as maps to sets of states.
ghost use Rattle.std.specs.Prelude.{◌≡◌, ◌<◌, ◌≤◌, length, map, All, IfOk};
ghost use Rattle.track_word.specs.Tracks.{without_var, place};
ghost use Rattle.letter_diagram.specs.Diagram.{Grows};
ghost use Rattle.letter_diagram.specs.Sets.{SetsKept};
ghost use Rattle.letter_diagram.specs.Merged.{HasSets, IsMerged};
ghost use Rattle.auto_project.specs.SetMaps.{HasWideRows, HasSetRowsOf, AreMergedAt};

use crate::join::uniter;
use crate::sets::singletons;
use auto_core::Auto;
use letter_diagram::{Diagrams, Merger, Node, Sets};
use limits::MOST_TRACKS;
use std::alloc::{AllocError, Global};
use track_word::{Var, places_of};

/// Nodes that map letters to states: the first row, and a row for each state.
#[derive(Drop)]
pub struct StateRows {
    pub diagrams: Diagrams,
    pub first: Node,
    pub rows: Vec<Node>,
}

/// Nodes that map letters to numbers of sets of states: the first row, and a row for each state.
#[derive(Drop)]
pub struct SetRows {
    pub merger: Merger,
    pub first: Node,
    pub rows: Vec<Node>,
}

/// Returns the rows with the tracks reordered: the remaining tracks, followed by the projected one.
fn wide_rows(alloc: Global, a: &Auto, tracks: &[Var]) -> Result<StateRows, AllocError>
    requires few { length tracks.now ≤ MOST_TRACKS }
    requires fit { All (λ place. place < MOST_TRACKS) (map (place tracks.now) a.now.tracks) }
    ensures rows { IfOk result (λ wide. HasWideRows wide.diagrams a.now tracks.now wide.first wide.rows.items) }
{
    let places = places_of(alloc, tracks, a.tracks())?;
    let nodes = a.all_nodes(alloc)?;
    let mut diagrams = Diagrams::with_capacity(alloc, a.diagrams().len())?;
    let mut rows = diagrams.bring_relabelled(a.diagrams(), nodes.as_slice(), places.as_slice())?;
    let first = rows.remove(0);
    Ok(StateRows {
        diagrams,
        first,
        rows,
    })
}

/// Returns the node of the unions over both bits of the merger's track.
fn merged_row(merger: &mut Merger, node: Node) -> Result<Node, AllocError>
    requires { HasSets merger.old.shapes merger.old.sets node }
    ensures merged { IfOk result (λ row. IsMerged merger.new.shapes merger.new.sets merger.old.track node row) }
    ensures sets { SetsKept merger.old.sets merger.new.sets }
    ensures grows { Grows merger.old.shapes merger.new.shapes }
    ensures track { merger.new.track ≡ merger.old.track }
{
    if merger.sets().len() >= 1 << 31 {
        return Err(AllocError);
    }
    let row = merger.apply(node)?;
    Ok(row)
}

fn merged_rows(alloc: Global, merger: &mut Merger, nodes: &[Node]) -> Result<Vec<Node>, AllocError>
    requires { All (HasSets merger.old.shapes merger.old.sets) nodes.now }
    ensures merged { IfOk result (λ rows. AreMergedAt merger.old.track merger.new nodes.now rows.items) }
    ensures sets { SetsKept merger.old.sets merger.new.sets }
    ensures grows { Grows merger.old.shapes merger.new.shapes }
    ensures track { merger.new.track ≡ merger.old.track }
{
    let mut rows = Vec::new(alloc);
    for node in nodes {
        let row = merged_row(merger, *node)?;
        rows.push(row)?;
    }
    Ok(rows)
}

/// Returns rows that do not depend on a track: the unions over both its bits.
fn without_track(
    alloc: Global,
    wide: StateRows,
    sets: Sets,
    track: u8,
) -> Result<SetRows, AllocError>
    requires track { track < MOST_TRACKS }
    requires first { HasSets wide.diagrams sets wide.first }
    requires rows { All (HasSets wide.diagrams sets) wide.rows.items }
    ensures first { IfOk result (λ made. IsMerged made.merger.shapes made.merger.sets track wide.first made.first) }
    ensures rows { IfOk result (λ made. AreMergedAt track made.merger wide.rows.items made.rows.items) }
    ensures grows { IfOk result (λ made. Grows wide.diagrams made.merger.shapes) }
    ensures kept { IfOk result (λ made. SetsKept sets made.merger.sets) }
{
    let StateRows {
        diagrams,
        first,
        rows,
    } = wide;
    let mut merger = Merger::new(diagrams, sets, track);
    let rows = merged_rows(alloc, &mut merger, rows.as_slice())?;
    let first = merged_row(&mut merger, first)?;
    Ok(SetRows {
        merger,
        first,
        rows,
    })
}

/// Returns the rows over the remaining tracks: each letter is mapped to the set of the states that follow by the letters that
/// restrict to it.
pub(crate) fn set_rows(
    alloc: Global,
    a: &Auto,
    var: Var,
    tracks: &[Var],
) -> Result<SetRows, AllocError>
    requires { tracks.now ≡ without_var var a.now.tracks }
    ensures { IfOk result (HasSetRowsOf a.now tracks.now) }
{
    let all = a.tracks();
    let wide = wide_rows(alloc, a, tracks)?;
    let sets = singletons(alloc, a.states())?;
    if tracks.len() == all.len() {
        return Ok(SetRows {
            merger: uniter(wide.diagrams, sets),
            first: wide.first,
            rows: wide.rows,
        });
    }
    let made = without_track(alloc, wide, sets, tracks.len() as u8)?;
    let _ = made.merger.sets().len(); // for its invariant
    Ok(made)
}
