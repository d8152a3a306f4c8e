//! One operand of a product: the rows of an automaton, read over the tracks of both.
ghost use Rattle.std.specs.Prelude.{◌≤◌, length, Some, IfOk};
ghost use Rattle.track_word.specs.Tracks.{IsAscending};
ghost use Rattle.auto_bool.specs.Sides.{IsSide, AreAmong};

use auto_core::Auto;
use diagram_product::LentReader;
use limits::MOST_TRACKS;
use std::alloc::{AllocError, Global};
use track_word::{Var, places_of};

/// Returns a reader of the nodes of an automaton over the tracks `all`, which contain its own. No node is copied.
pub fn side<'a>(alloc: Global, all: &[Var], a: &'a Auto) -> Result<LentReader<'a>, AllocError>
    requires all { length all.now ≤ MOST_TRACKS }
    requires ascending { IsAscending all.now }
    requires among { AreAmong all.now a.now.tracks }
    ensures { IfOk result (λ side. IsSide all.now a.now (Some side)) }
{
    let places = places_of(alloc, all, a.tracks())?;
    Ok(LentReader::new(a.diagrams(), places))
}
