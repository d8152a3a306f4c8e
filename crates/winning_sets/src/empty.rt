//! The empty set of tuples.
ghost use Rattle.std.specs.Prelude.{◌≤◌, IfOk, length};
ghost use Rattle.track_word.specs.Tracks.{IsAscending};
ghost use Rattle.winning_sets.specs.Lent.{IsEmptyOn};

use auto_core::Auto;
use letter_diagram::Diagrams;
use limits::MOST_TRACKS;
use std::alloc::{AllocError, Global};
use track_word::Var;

/// Returns an automaton of one state that accepts nothing.
pub(crate) fn empty_set(alloc: Global, tracks: Vec<Var>) -> Result<Auto, AllocError>
    requires ascending { IsAscending tracks.items }
    requires few { length tracks.items ≤ MOST_TRACKS }
    ensures { IfOk result (IsEmptyOn tracks.items) }
{
    let mut diagrams = Diagrams::new(alloc);
    let row = diagrams.leaf(0)?;
    let mut rows = Vec::new(alloc);
    rows.push(row)?;
    let mut flags = Vec::new(alloc);
    flags.push(false)?;
    Ok(Auto::from_diagrams(tracks, diagrams, row, rows, flags))
}
