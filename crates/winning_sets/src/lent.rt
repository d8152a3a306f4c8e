//! Copies of the sets of a ply.
ghost use Rattle.std.specs.Prelude.{◌≡◌, ◌<◌, All, IfOk, IfSome, length, map};
ghost use Rattle.winning_sets.specs.Lent.{AreEmpties, AreWithin, set_or, sets_or};

use crate::empty::empty_set;
use crate::ply_sets::PlySets;
use auto_core::Auto;
use chess_game::Position;
use lin_formula::SetId;
use mate_plan::{LevelNames, mask_tracks};
use set_plan::SetStore;
use std::alloc::{AllocError, Global};

/// Returns the empty set for each of the masks.
pub(crate) fn empty_sets(alloc: Global, p: &Position, masks: &[u8]) -> Result<Vec<Auto>, AllocError>
    ensures { IfOk result (λ sets. AreEmpties p.now.men masks.now sets.items) }
{
    let _ = p.count(); // for its invariant
    let mut sets = Vec::new(alloc);
    for mask in masks {
        let tracks = mask_tracks(alloc, p, *mask)?;
        sets.push(empty_set(alloc, tracks)?)?;
    }
    Ok(sets)
}

/// Returns the set of a name, or the other set if there is no name.
pub(crate) fn lent<'a>(sets: &'a SetStore, other: &'a Auto, id: Option<SetId>) -> &'a Auto
    requires { IfSome id (λ k. k.0 < length sets.now) }
    ensures { result.now ≡ set_or sets.now other.now id }
{
    match id {
        Some(id) => sets.get(id),
        None => other,
    }
}

/// Returns copies of the sets of the names, or of the other sets for those without a name.
pub(crate) fn lent_sets(
    alloc: Global,
    sets: &SetStore,
    others: &[Auto],
    names: &[Option<SetId>],
) -> Result<PlySets, AllocError>
    requires { AreWithin (length sets.now) (length others.now) names.now }
    ensures { IfOk result (λ copies. copies ≡ sets_or sets.now others.now names.now) }
{
    let mut copies = Vec::new(alloc);
    for (k, id) in names.iter().enumerate() {
        copies.push(lent(sets, &others[k], *id).copy()?)?;
    }
    Ok(PlySets::new(copies))
}

/// Returns copies of the sets of the names at each ply.
pub(crate) fn copied(
    alloc: Global,
    sets: &SetStore,
    others: &[Auto],
    levels: &[LevelNames],
) -> Result<Vec<PlySets>, AllocError>
    requires { All (AreWithin (length sets.now) (length others.now)) levels.now }
    ensures { IfOk result (λ copies. copies.items ≡ map (sets_or sets.now others.now) levels.now) }
{
    let mut copies = Vec::new(alloc);
    for names in levels {
        copies.push(lent_sets(alloc, sets, others, names.as_slice())?)?;
    }
    Ok(copies)
}
