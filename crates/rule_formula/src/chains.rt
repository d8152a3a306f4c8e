//! Chains of conjunctions.

ghost use Rattle.std.specs.Prelude.{◌≡◌, ◌≤◌, ◌++◌, ◌∷◌, [], IfOk, OnOk, true};
ghost use Rattle.lin_formula.specs.TreeOf.{tree_of};
ghost use Rattle.rule_formula.specs.Placed.{is_live as live_in, without};
ghost use Rattle.rule_formula.specs.Seats.{own as own_seat};
ghost use Rattle.rule_formula.specs.Trees.{AreApart, among_tree, and_all, difference as difference_tree, is_other as other_than, line_atoms, ray_atoms, unless_same};
ghost use Rattle.rule_formula.specs.Ways.{clear_path, on_stretch, passing_path};
ghost use Rattle.lin_formula.specs.Tree as tree;

use crate::atoms::{Extent, ahead, both, difference, line, not, on};
use crate::paths::{Path, Stretch};
use crate::seats::{Seat, Seats, own};
use crate::stock::{LiveMen, is_live};
use lin_formula::{Formula, SetId, among};
use std::alloc::{AllocError, Global};
use track_word::{Rel, Var};

/// Appends the variables of the seat.
fn push_seat(vars: &mut Vec<Var>, seat: Seat) -> Result<(), AllocError>
    ensures { OnOk result (vars.new.items ≡ vars.old.items ++ seat.x ∷ seat.y ∷ []) }
{
    vars.push(seat.x)?;
    vars.push(seat.y)?;
    Ok(())
}

/// Returns whether the man is live and not the captured one.
fn is_kept(mask: u8, gone: u8, man: u8) -> bool
    requires low { 1 ≤ man }
    requires high { man ≤ 8 }
    ensures { result ≡ without (live_in mask) gone man }
{
    is_live(mask, man) && man != gone
}

/// Returns the membership of the position with the men on their seats.
pub(crate) fn among_seats(
    alloc: Global,
    men: LiveMen,
    gone: u8,
    seats: Seats,
    set: SetId,
) -> Result<Formula, AllocError>
    ensures { IfOk result (λ f. tree_of f ≡ among_tree men.count men.mask gone seats set.0) }
{
    let mut vars = Vec::new(alloc);
    for n in 0..men.count {
        let man = n + 1;
        if is_kept(men.mask, gone, man) {
            push_seat(&mut vars, seats.seat(man))?;
        }
    }
    among(alloc, set, &vars)
}

/// Adds that x - y is the step, if these are two variables.
fn and_step(alloc: Global, chain: Formula, x: Var, y: Var, step: i8) -> Result<Formula, AllocError>
    ensures { IfOk result (λ f. tree_of f ≡ and_all (tree_of chain) (unless_same x y (difference_tree x y Rel.Eq step))) }
{
    if x == y {
        return Ok(chain);
    }
    both(
        alloc,
        chain,
        difference(alloc, x, y, Rel::Eq, i32::from(step))?,
    )
}

/// Adds that the end is on the line of the ray through the start.
fn and_line(alloc: Global, chain: Formula, stretch: Stretch) -> Result<Formula, AllocError>
    ensures { IfOk result (λ f. tree_of f ≡ and_all (tree_of chain)
        (line_atoms stretch.ray.dx stretch.ray.dy stretch.from stretch.to)) }
{
    let Stretch { ray, from, to, .. } = stretch;
    if ray.dx == 0 {
        and_step(alloc, chain, to.x, from.x, 0)
    } else if ray.dy == 0 {
        and_step(alloc, chain, to.y, from.y, 0)
    } else {
        both(alloc, chain, line(alloc, ray, from, to)?)
    }
}

/// Adds that the end is on the far ray from the start.
#[tactic(auto, using(crate::proofs::ChainLemmas::more))]
fn and_far(alloc: Global, chain: Formula, stretch: Stretch) -> Result<Formula, AllocError>
    requires { stretch.ray.far ≡ true }
    ensures { IfOk result (λ f. tree_of f ≡ and_all (tree_of chain) (ray_atoms stretch.ray stretch.from stretch.to)) }
{
    let Stretch { ray, from, to, .. } = stretch;
    let drawn = and_line(alloc, chain, stretch)?;
    both(alloc, drawn, ahead(alloc, ray, from, to, Extent::Before)?)
}

/// Adds that the end is on the ray from the start.
#[tactic(auto, using(crate::proofs::ChainLemmas::more))]
pub(crate) fn and_ray(
    alloc: Global,
    chain: Formula,
    stretch: Stretch,
) -> Result<Formula, AllocError>
    ensures { IfOk result (λ f. tree_of f ≡ and_all (tree_of chain) (ray_atoms stretch.ray stretch.from stretch.to)) }
{
    let Stretch { ray, from, to, .. } = stretch;
    if ray.far {
        return and_far(alloc, chain, stretch);
    }
    let across = and_step(alloc, chain, to.x, from.x, ray.dx)?;
    and_step(alloc, across, to.y, from.y, ray.dy)
}

/// Returns whether the man is live and neither of the two.
fn is_other(mask: u8, path: Path, man: u8) -> bool
    requires low { 1 ≤ man }
    requires high { man ≤ 8 }
    ensures { result ≡ other_than (live_in mask) path.first path.second man }
{
    is_live(mask, man) && (man != path.first && man != path.second)
}

/// Adds that the man does not stand on the stretch.
fn and_away(alloc: Global, chain: Formula, stretch: Stretch, man: u8) -> Result<Formula, AllocError>
    requires low { 1 ≤ man }
    requires high { man ≤ 8 }
    requires first { AreApart stretch.from (own_seat man) }
    requires last { AreApart (own_seat man) stretch.to }
    ensures { IfOk result (λ f. tree_of f ≡ tree.And (tree_of chain) (tree.Not (on_stretch stretch (own_seat man)))) }
{
    let stands = on(alloc, stretch, own(man))?;
    both(alloc, chain, not(alloc, stands)?)
}

/// Adds that none of the other live men stands on the path.
fn and_clear(alloc: Global, chain: Formula, men: LiveMen, path: Path) -> Result<Formula, AllocError>
    ensures { IfOk result (λ f. tree_of f ≡ clear_path (tree_of chain) men.mask path men.count) }
{
    let mut all = chain;
    for n in 0..men.count {
        let man = n + 1;
        if is_other(men.mask, path, man) {
            all = and_away(alloc, all, path.stretch, man)?;
        }
    }
    Ok(all)
}

/// Adds that the end is on the ray from the start, and that none of the other live men stands on the path.
pub(crate) fn and_path(
    alloc: Global,
    chain: Formula,
    men: LiveMen,
    path: Path,
) -> Result<Formula, AllocError>
    ensures { IfOk result (λ f. tree_of f ≡ passing_path (tree_of chain) men.mask path men.count) }
{
    let along = and_ray(alloc, chain, path.stretch)?;
    and_clear(alloc, along, men, path)
}
