//! The parts of a move and of a check.

ghost use Rattle.std.specs.Prelude.{◌≡◌, ◌≤◌, ◌∷◌, ℕ, IfOk, length, pos};
ghost use Rattle.game_rules.specs.declared.men.Square.{Square};
ghost use Rattle.lin_formula.specs.Tree as tree;
ghost use Rattle.lin_formula.specs.TreeOf.{tree_of};
ghost use Rattle.rule_formula.specs.Placed.{is_live as live_in};
ghost use Rattle.rule_formula.specs.Trees.{is_other as other_than, ray_at as ray_of_man};
ghost use Rattle.line_formula.specs.Atoms.{gap_tree};
ghost use Rattle.line_formula.specs.Places.{home};
ghost use Rattle.line_formula.specs.Rules.{across as across_gap, ahead as ahead_tree, apart_by as apart_tree, bear as bear_tree, distance_as, line as line_tree, on_way as on_way_tree, screens as screens_tree, upward as upward_gap};
ghost use Rattle.line_formula.specs.Small.{AreTwo, IsSmallRay};

use crate::atoms::{both, gap_formula, not, reached, sum};
use crate::gap::{across, measure, off_line, opposite, upward};
use crate::leg::Leg;
use crate::men::{is_live, ray_at};
use crate::scene::Scene;
use chess_game::MOST_CROWD;
use game_rules::Ray;
use lin_formula::Formula;
use rule_formula::Bearing;
use std::alloc::{AllocError, Global};
use track_word::{Rel, Var};

/// Returns the formula that the second man is on the line through the first along the ray, ahead of him.
fn on_line(alloc: Global, scene: Scene, ray: Ray, from: u8, to: u8) -> Result<Formula, AllocError>
    requires small { IsSmallRay ray }
    requires two { AreTwo scene.men.now from to }
    ensures { IfOk result (λ f. tree_of f
        ≡ tree.And (line_tree (home scene.entry.men.now) scene.entry.legs.now ray from to)
        (ahead_tree (home scene.entry.men.now) scene.entry.legs.now ray from to)) }
{
    let line = gap_formula(alloc, scene, off_line(ray, from, to), Rel::Eq, 0)?;
    let ahead = ahead(alloc, scene, ray, from, to)?;
    both(alloc, line, ahead)
}

/// Returns the formula that the measure from the first man to the second is at least 1.
fn ahead(alloc: Global, scene: Scene, ray: Ray, from: u8, to: u8) -> Result<Formula, AllocError>
    requires small { IsSmallRay ray }
    requires two { AreTwo scene.men.now from to }
    ensures { IfOk result
        (λ f. tree_of f ≡ ahead_tree (home scene.entry.men.now) scene.entry.legs.now ray from to) }
{
    let gap = opposite(measure(ray, from, to));
    gap_formula(alloc, scene, gap, Rel::Le, -1)
}

/// Returns the formula that the second man is at this distance from the first, to the right and upwards.
fn apart_by(
    alloc: Global,
    scene: Scene,
    from: u8,
    to: u8,
    offset: (i8, i8),
) -> Result<Formula, AllocError>
    requires two { AreTwo scene.men.now from to }
    ensures { IfOk result (λ f. tree_of f
        ≡ apart_tree (home scene.entry.men.now) scene.entry.legs.now from to offset.0 offset.1) }
{
    let (dx, dy) = offset;
    let right = gap_formula(alloc, scene, across(from, to), Rel::Eq, i32::from(dx))?;
    let up = gap_formula(alloc, scene, upward(from, to), Rel::Eq, i32::from(dy))?;
    both(alloc, right, up)
}

/// Returns the first part of a move: the distance is one step, or at least one on a far ray. Errors: an allocation failed.
pub fn distance(alloc: Global, far: bool, var: Var) -> Result<Formula, AllocError>
    ensures { IfOk result (λ f. (start : ℕ → Square) → tree_of f ≡ distance_as start far var) }
{
    if far {
        sum(alloc, &[(-1, var)], Rel::Le, -1)
    } else {
        sum(alloc, &[(1, var)], Rel::Eq, 1)
    }
}

/// Returns the parts of a capture: the mover, whose move is the last of the scene, reaches the square of the captured man. One part
/// compares x, the other y. Errors: an allocation failed.
pub fn captures(
    alloc: Global,
    scene: Scene,
    mover: u8,
    taken: u8,
) -> Result<(Formula, Formula), AllocError>
    requires two { AreTwo scene.men.now taken mover }
    ensures right { IfOk result (λ f. tree_of f.0
        ≡ gap_tree (home scene.entry.men.now) scene.entry.legs.now (across_gap taken mover) Rel.Eq (pos 0)) }
    ensures up { IfOk result (λ f. tree_of f.1
        ≡ gap_tree (home scene.entry.men.now) scene.entry.legs.now (upward_gap taken mover) Rel.Eq (pos 0)) }
{
    let right = gap_formula(alloc, scene, across(taken, mover), Rel::Eq, 0)?;
    let up = gap_formula(alloc, scene, upward(taken, mover), Rel::Eq, 0)?;
    Ok((right, up))
}

/// Returns the formula that the man with this number is on the way of the leg between the two scenes. Errors: an allocation failed.
pub fn on_way(
    alloc: Global,
    before: Scene,
    after: Scene,
    leg: Leg,
    number: u8,
) -> Result<Formula, AllocError>
    requires men { after.men.now ≡ before.men.now }
    requires legs { after.legs.now ≡ leg ∷ before.legs.now }
    requires small { IsSmallRay leg.ray }
    requires two { AreTwo before.men.now leg.man number }
    ensures { IfOk result
        (λ f. tree_of f ≡ on_way_tree (home before.entry.men.now) before.entry.legs.now leg number) }
{
    if leg.ray.far {
        let base = on_line(alloc, before, leg.ray, leg.man, number)?;
        let reached = reached(alloc, before, leg.ray, leg.man, number)?;
        both(alloc, base, reached)
    } else {
        apart_by(alloc, after, leg.man, number, (0, 0))
    }
}

/// Returns whether the man with this number is live and neither of the two.
pub fn is_other(mask: u32, first: u8, second: u8, number: u8) -> bool
    requires low { 1 ≤ number }
    requires high { number ≤ MOST_CROWD }
    ensures { result ≡ other_than (live_in mask) first second number }
{
    is_live(mask, number) && (number != first && number != second)
}

/// Returns the formula that the man with this number is between the attacking man and the king on the ray.
fn screens(
    alloc: Global,
    scene: Scene,
    ray: Ray,
    bearing: Bearing,
    number: u8,
) -> Result<Formula, AllocError>
    requires small { IsSmallRay ray }
    requires man { AreTwo scene.men.now bearing.man number }
    requires king { AreTwo scene.men.now number bearing.king }
    ensures { IfOk result (λ f. tree_of f
        ≡ screens_tree (home scene.entry.men.now) scene.entry.legs.now ray bearing.man bearing.king number) }
{
    let base = on_line(alloc, scene, ray, bearing.man, number)?;
    let before = ahead(alloc, scene, ray, number, bearing.king)?;
    both(alloc, base, before)
}

/// Adds that the man with this number is not between the attacking man and the king.
fn with_screen(
    alloc: Global,
    scene: Scene,
    bearing: Bearing,
    chain: Formula,
    number: u8,
) -> Result<Formula, AllocError>
    requires two { AreTwo scene.men.now bearing.man bearing.king }
    requires low { 1 ≤ number }
    requires high { number ≤ length scene.men.now }
    ensures { IfOk result (λ f. tree_of f
        ≡ tree.And (tree_of chain) (tree.Not (screens_tree (home scene.entry.men.now) scene.entry.legs.now
        (ray_of_man scene.entry.men.now bearing.man bearing.ray) bearing.man bearing.king number))) }
{
    let ray = ray_at(scene.men, bearing.man, bearing.ray);
    let screen = screens(alloc, scene, ray, bearing, number)?;
    both(alloc, chain, not(alloc, screen)?)
}

/// Returns the formula that the attack's man attacks the king along his ray, if the men of the mask are live. Errors: an allocation
/// failed.
pub fn bear(alloc: Global, scene: Scene, mask: u32, bearing: Bearing) -> Result<Formula, AllocError>
    requires two { AreTwo scene.men.now bearing.man bearing.king }
    ensures { IfOk result (λ f. tree_of f
        ≡ bear_tree (home scene.entry.men.now) scene.entry.legs.now (live_in mask) (length scene.entry.men.now)
        (ray_of_man scene.entry.men.now bearing.man bearing.ray) bearing.man bearing.king) }
{
    let ray = ray_at(scene.men, bearing.man, bearing.ray);
    if !ray.far {
        return apart_by(alloc, scene, bearing.man, bearing.king, (ray.dx, ray.dy));
    }
    let mut chain = on_line(alloc, scene, ray, bearing.man, bearing.king)?;
    for n in 0..scene.men.len() as u8 {
        let number = n + 1;
        if is_other(mask, bearing.man, bearing.king, number) {
            chain = with_screen(alloc, scene, bearing, chain, number)?;
        }
    }
    Ok(chain)
}
