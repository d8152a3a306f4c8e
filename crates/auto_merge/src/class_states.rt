//! The automaton over classes of places whose rows lead to the same classes.
ghost use Rattle.std.specs.Prelude.{◌≡◌, ◌<◌, Err, length, IfOk, OnOk};
ghost use Rattle.auto_walk.specs.Walker.{MoreThan};
ghost use Rattle.auto_merge.specs.Merging.{IsMerging, Keeps, IsKnownClassIn};
ghost use Rattle.auto_merge.specs.Walk.{IsTrailIn};
ghost use Rattle.auto_merge.specs.Merged.{IsMerged, IsSettledIn, IsClassRowIn, AreClassRowsIn, AreClassFlagsIn};

use crate::keys::NoKey;
use crate::merging::{Merging, into_diagrams, no_classes};
use crate::rows::RowSource;
use crate::visits::spot_key;
use crate::walk::{Trail, class_from, no_trail};
use auto_core::Auto;
use auto_walk::Grown;
use letter_diagram::Node;
use std::alloc::{AllocError, Global};

/// Returns the node that maps a spot to classes. Places without a class get one.
fn settled_node<R: RowSource>(
    rows: &R,
    spot: R::Spot,
    merging: &mut Merging<R>,
    way: &mut Trail,
) -> Result<Node, Grown>
    requires read { (R.graph rows.now).can_read spot }
    requires merging { IsMerging (R.graph rows.now) (R.places rows.now) R.answers merging.old }
    requires way { IsTrailIn (R.places rows.now) merging.old way.old }
    ensures node { IfOk result (IsSettledIn (R.graph rows.now) (R.places rows.now) merging.new spot) }
    ensures merging { OnOk result (IsMerging (R.graph rows.now) (R.places rows.now) R.answers merging.new) }
    ensures kept { OnOk result (Keeps (R.places rows.now) merging.old merging.new) }
    ensures way { OnOk result (IsTrailIn (R.places rows.now) merging.new way.new) }
    ensures over { result ≡ Err Grown.Over → MoreThan (R.graph rows.now).walker (R.graph rows.now).most }
{
    loop {
        match spot_key(rows, spot, merging) {
            Ok(key) => return Ok(key.node),
            Err(NoKey::Unclassed(number)) => class_from(rows, number, merging, way)?,
            Err(NoKey::Over) => return Err(Grown::Over),
            Err(NoKey::Memory) => return Err(Grown::Memory),
        }
    }
}

/// Returns the row of a class: that of its first place.
fn class_row<R: RowSource>(
    rows: &R,
    class: u32,
    merging: &mut Merging<R>,
    way: &mut Trail,
) -> Result<Node, Grown>
    requires known { IsKnownClassIn merging.old class }
    requires merging { IsMerging (R.graph rows.now) (R.places rows.now) R.answers merging.old }
    requires way { IsTrailIn (R.places rows.now) merging.old way.old }
    ensures node { IfOk result (IsClassRowIn (R.graph rows.now) (R.places rows.now) merging.new class) }
    ensures merging { OnOk result (IsMerging (R.graph rows.now) (R.places rows.now) R.answers merging.new) }
    ensures kept { OnOk result (Keeps (R.places rows.now) merging.old merging.new) }
    ensures way { OnOk result (IsTrailIn (R.places rows.now) merging.new way.new) }
    ensures over { result ≡ Err Grown.Over → MoreThan (R.graph rows.now).walker (R.graph rows.now).most }
{
    let owner = merging.owners[class as usize];
    let spot = rows.row(&merging.led.seen, owner);
    let node = settled_node(rows, spot, merging, way)?;
    Ok(node)
}

/// Returns the rows of all classes, including those that get their first place meanwhile.
fn class_rows<R: RowSource>(
    alloc: Global,
    rows: &R,
    merging: &mut Merging<R>,
    way: &mut Trail,
) -> Result<Vec<Node>, Grown>
    requires merging { IsMerging (R.graph rows.now) (R.places rows.now) R.answers merging.old }
    requires way { IsTrailIn (R.places rows.now) merging.old way.old }
    ensures rows { IfOk result (λ nodes. AreClassRowsIn (R.graph rows.now) (R.places rows.now) merging.new nodes.items) }
    ensures size { IfOk result (λ nodes. length nodes.items ≡ length merging.new.owners.items) }
    ensures merging { OnOk result (IsMerging (R.graph rows.now) (R.places rows.now) R.answers merging.new) }
    ensures kept { OnOk result (Keeps (R.places rows.now) merging.old merging.new) }
    ensures over { result ≡ Err Grown.Over → MoreThan (R.graph rows.now).walker (R.graph rows.now).most }
{
    let mut nodes = Vec::new(alloc);
    while nodes.len() < merging.owners.len() {
        let node = class_row(rows, nodes.len() as u32, merging, way)?;
        nodes.push(node)?;
    }
    Ok(nodes)
}

/// Returns the accept flags of the classes' first places.
fn class_flags<R: RowSource>(
    alloc: Global,
    rows: &R,
    merging: &Merging<R>,
) -> Result<Vec<bool>, AllocError>
    requires merging { IsMerging (R.graph rows.now) (R.places rows.now) R.answers merging.now }
    ensures { IfOk result (λ flags. AreClassFlagsIn (R.graph rows.now) (R.places rows.now) merging.now flags.items) }
{
    let mut flags = Vec::new(alloc);
    for owner in merging.owners.as_slice() {
        flags.push(rows.is_final(&merging.led.seen, *owner))?;
    }
    Ok(flags)
}

/// An automaton over classes.
#[derive(Drop)]
pub struct Once {
    pub auto: Auto,
    /// Whether a path through other places led back to a place, so that some equivalent places may have different classes.
    pub is_looped: bool,
    /// Whether at most half of the places remained, so that the table may have many unreachable nodes.
    pub is_halved: bool,
}

/// Returns the automaton over the classes of all places that rows reach. Places with one flag whose rows lead to the same states, or
/// each to itself where the other leads to itself, are merged. Costs the spots of the rows, a second time those that lead to their
/// own place. Errors: `Over` if words reach more places than the limit, `Memory` if an allocation fails.
pub fn merge_places<R: RowSource>(alloc: Global, rows: &R) -> Result<Once, Grown>
    ensures ok { IfOk result (λ once. IsMerged (R.graph rows.now) once.auto) }
    ensures over { result ≡ Err Grown.Over → MoreThan (R.graph rows.now).walker (R.graph rows.now).most }
{
    let mut merging = no_classes(alloc, rows)?;
    let mut way = no_trail(alloc);
    let first = settled_node(rows, rows.first(), &mut merging, &mut way)?;
    let nodes = class_rows(alloc, rows, &mut merging, &mut way)?;
    let accept = class_flags(alloc, rows, &merging)?;
    let tracks = rows.tracks().to_vec(alloc)?;
    let is_looped = merging.has_own;
    let is_halved = accept.len() <= rows.count(&merging.led.seen) / 2;
    Ok(Once {
        auto: Auto::from_diagrams(tracks, into_diagrams(merging), first, nodes, accept),
        is_looped,
        is_halved,
    })
}
