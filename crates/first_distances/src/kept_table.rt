//! The sets that the formula of a ray names.
ghost use Rattle.std.specs.Prelude.{◌≡◌, ◌≤◌, ◌++◌, ◌∷◌, [], All, IfOk, OnOk, Some, length, map};
ghost use Rattle.rule_formula.specs.Fits.{IsGameMask};
ghost use Rattle.winning_sets.specs.Solve.{end_of, kept_at};
ghost use Rattle.winning_sets.specs.declared.origin.Origin.TheVariants.{Plan};

use auto_core::Auto;
use formula_auto::SetTable;
use std::alloc::{AllocError, Global};
use winning_sets::Solved;

/// Adds a set to the table.
fn put(sets: &mut SetTable, a: &Auto) -> Result<(), AllocError>
    requires { length sets.old ≤ 9 }
    ensures { OnOk result (sets.new ≡ sets.old ++ a.now ∷ []) }
{
    match sets.put(a.copy()?) {
        Ok(_) => Ok(()),
        Err(_) => Err(AllocError),
    }
}

/// The set of this mask that is kept after the first move.
fn kept_set(solved: &Solved, mask: u8) -> &Auto
    requires plan { solved.now.origin ≡ Plan }
    requires ply { 1 ≤ end_of solved.now }
    requires game { IsGameMask solved.now.position mask }
    ensures { Some result.now ≡ kept_at solved.now 1 mask }
{
    match solved.set(1, mask) {
        Some(set) => set,
        None => unreachable!(),
    }
}

/// Returns the sets kept after the first move, one for each of the masks.
pub(crate) fn kept_sets(
    alloc: Global,
    solved: &Solved,
    masks: &[u8],
) -> Result<SetTable, AllocError>
    requires plan { solved.now.origin ≡ Plan }
    requires ply { 1 ≤ end_of solved.now }
    requires game { All (IsGameMask solved.now.position) masks.now }
    requires few { length masks.now ≤ 9 }
    ensures { IfOk result (λ sets. map Some sets ≡ map (kept_at solved.now 1) masks.now) }
{
    let mut sets = SetTable::new(alloc);
    for mask in masks {
        put(&mut sets, kept_set(solved, *mask))?;
    }
    Ok(sets)
}
