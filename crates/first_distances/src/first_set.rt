//! The set of the winner's first moves along a ray.
ghost use Rattle.std.specs.Prelude.{◌≡◌, ◌≤◌, IfErr, IfOk, OnOk};
ghost use Rattle.move_choice.specs.Aims.{HasRay};
ghost use Rattle.winning_sets.specs.declared.origin.Origin.TheVariants.{Plan};
ghost use Rattle.first_distances.specs.FirstSet.{IsFirstSet, IsRayError, RayStaysWithin};

use crate::formulas::ray_formula;
use crate::kept_table::kept_sets;
use crate::masks::masks_after;
use auto_core::Auto;
use formula_auto::{CompileError, compile};
use limits::Budget;
use move_choice::his_ray;
use std::alloc::Global;
use winning_sets::Solved;

/// Computes the distances, on the whole board, of the winner's first moves along a ray after which he mates in time;
/// captures are included. The formula is compiled step by step within the budget, with each of its sets, even an empty
/// one. The error is the first step that exceeds the budget, or that an allocation failed.
pub fn ray_set(
    alloc: Global,
    solved: &Solved,
    man: u8,
    ray: u8,
    budget: Budget,
) -> Result<Auto, CompileError>
    requires plan { solved.now.origin ≡ Plan }
    requires turn { solved.now.position.turn ≡ solved.now.winner }
    requires moves { 1 ≤ solved.now.moves }
    requires mover { HasRay solved.now.position man ray }
    ensures firsts { IfOk result (IsFirstSet solved.now.winner solved.now.moves solved.now.position man ray) }
    ensures within { OnOk result (RayStaysWithin solved.now.winner solved.now.moves solved.now.position man ray budget) }
    ensures over { IfErr result (IsRayError solved.now.winner solved.now.moves solved.now.position man ray budget) }
{
    let _game = solved.masks(); // for its invariant
    let position = solved.position();
    let masks = masks_after(alloc, &position)?;
    let all = masks.as_slice();
    let sets = kept_sets(alloc, solved, all)?;
    let his = his_ray(&position, man, ray);
    let f = ray_formula(alloc, &position, his, all)?;
    compile(alloc, &f, &sets, budget)
}
