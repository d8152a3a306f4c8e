//! The atoms of rays.

ghost use Rattle.std.specs.Prelude.{◌≡◌, ◌≢◌, ◌≤◌, ◌≤ℤ◌, IfOk, pos, neg_ℤ, negsuc, unsigned_abs};
ghost use Rattle.track_word.specs.Atom.{IsAtom};
ghost use Rattle.lin_formula.specs.TreeOf.{tree_of};
ghost use Rattle.rule_formula.specs.Seats.{IsSeat};
ghost use Rattle.rule_formula.specs.Trees.{AreApart, IsCounted, IsDrawn, ahead as ahead_tree, falling as falling_tree, rising as rising_tree, leaping as leaping_tree, difference as difference_tree, line as line_tree, ordered as ordered_tree, past};
ghost use Rattle.rule_formula.specs.Ways.{on_stretch};
ghost use Rattle.lin_formula.specs.Tree as tree;

use crate::paths::Stretch;
use crate::seats::Seat;
use game_rules::Ray;
use lin_formula::Formula;
use std::alloc::{AllocError, Global};
use track_word::{Rel, Var};

/// Returns the conjunction.
pub(crate) fn both(alloc: Global, first: Formula, second: Formula) -> Result<Formula, AllocError>
    ensures { IfOk result (λ f. tree_of f ≡ tree.And (tree_of first) (tree_of second)) }
{
    match lin_formula::and(alloc, first, second) {
        Ok(f) => Ok(f),
        Err(_) => Err(AllocError),
    }
}

pub(crate) fn not(alloc: Global, formula: Formula) -> Result<Formula, AllocError>
    ensures { IfOk result (λ f. tree_of f ≡ tree.Not (tree_of formula)) }
{
    match lin_formula::not(alloc, formula) {
        Ok(f) => Ok(f),
        Err(_) => Err(AllocError),
    }
}

/// Returns the comparison of the sum of the terms with the bound.
fn sum(alloc: Global, terms: &[(i8, Var)], rel: Rel, bound: i32) -> Result<Formula, AllocError>
    requires { IsAtom terms.now bound }
    ensures { IfOk result (λ f. tree_of f ≡ tree.Lin terms.now rel bound) }
{
    match lin_formula::lin(alloc, terms, rel, bound) {
        Ok(f) => Ok(f),
        Err(lin_formula::LinWhy::Memory) => Err(AllocError),
        Err(_) => unreachable!(),
    }
}

/// Returns the comparison of x - y with the bound.
pub(crate) fn difference(
    alloc: Global,
    x: Var,
    y: Var,
    rel: Rel,
    bound: i32,
) -> Result<Formula, AllocError>
    requires apart { x.0 ≢ y.0 }
    requires low { negsuc 999 ≤ℤ bound }
    requires high { bound ≤ℤ pos 1000 }
    ensures { IfOk result (λ f. tree_of f ≡ difference_tree x y rel bound) }
{
    sum(alloc, &[(1, x), (-1, y)], rel, bound)
}

fn rising(alloc: Global, from: Seat, to: Seat) -> Result<Formula, AllocError>
    requires from { IsSeat from }
    requires to { IsSeat to }
    requires apart { AreApart from to }
    ensures { IfOk result (λ f. tree_of f ≡ rising_tree from to) }
{
    sum(
        alloc,
        &[(1, to.x), (-1, from.x), (-1, to.y), (1, from.y)],
        Rel::Eq,
        0,
    )
}

fn falling(alloc: Global, from: Seat, to: Seat) -> Result<Formula, AllocError>
    requires from { IsSeat from }
    requires to { IsSeat to }
    requires apart { AreApart from to }
    ensures { IfOk result (λ f. tree_of f ≡ falling_tree from to) }
{
    sum(
        alloc,
        &[(1, to.x), (-1, from.x), (1, to.y), (-1, from.y)],
        Rel::Eq,
        0,
    )
}

/// Returns the variable, times the ray's step upwards.
fn up_term(ray: Ray, var: Var) -> (i8, Var)
    ensures { result ≡ (ray.dy, var) }
{
    (ray.dy, var)
}

/// Returns the variable, times the ray's step downwards.
fn down_term(ray: Ray, var: Var) -> (i8, Var)
    requires { unsigned_abs ray.dy ≤ 2 }
    ensures { result ≡ (neg_ℤ ray.dy, var) }
{
    (-ray.dy, var)
}

/// Returns the variable, times the ray's step to the right.
fn right_term(ray: Ray, var: Var) -> (i8, Var)
    ensures { result ≡ (ray.dx, var) }
{
    (ray.dx, var)
}

/// Returns the variable, times the ray's step to the left.
fn left_term(ray: Ray, var: Var) -> (i8, Var)
    requires { unsigned_abs ray.dx ≤ 2 }
    ensures { result ≡ (neg_ℤ ray.dx, var) }
{
    (-ray.dx, var)
}

/// Returns the atom that the end is on the line through the start in the direction of a knight's ray.
fn leaping(alloc: Global, ray: Ray, from: Seat, to: Seat) -> Result<Formula, AllocError>
    requires from { IsSeat from }
    requires to { IsSeat to }
    requires apart { AreApart from to }
    requires right { ray.dx ≢ pos 0 }
    requires up { ray.dy ≢ pos 0 }
    requires short_right { unsigned_abs ray.dx ≤ 2 }
    requires short_up { unsigned_abs ray.dy ≤ 2 }
    ensures { IfOk result (λ f. tree_of f ≡ leaping_tree ray.dx ray.dy from to) }
{
    let terms = [
        up_term(ray, to.x),
        down_term(ray, from.x),
        left_term(ray, to.y),
        right_term(ray, from.y),
    ];
    sum(alloc, &terms, Rel::Eq, 0)
}

/// Returns the atom that the end is on the line, neither a row nor a column, through the start in the direction of the ray.
#[tactic(auto, using(crate::proofs::LineTrees::lines))]
fn slanting(alloc: Global, ray: Ray, from: Seat, to: Seat) -> Result<Formula, AllocError>
    requires from { IsSeat from }
    requires to { IsSeat to }
    requires apart { AreApart from to }
    requires right { ray.dx ≢ pos 0 }
    requires up { ray.dy ≢ pos 0 }
    requires short_right { unsigned_abs ray.dx ≤ 2 }
    requires short_up { unsigned_abs ray.dy ≤ 2 }
    ensures { IfOk result (λ f. tree_of f ≡ line_tree ray.dx ray.dy from to) }
{
    if ray.dx == ray.dy {
        rising(alloc, from, to)
    } else if ray.dx == -ray.dy {
        falling(alloc, from, to)
    } else {
        leaping(alloc, ray, from, to)
    }
}

/// Returns the atom that the end is on the line through the start in the direction of the ray.
pub(crate) fn line(alloc: Global, ray: Ray, from: Seat, to: Seat) -> Result<Formula, AllocError>
    requires from { IsSeat from }
    requires to { IsSeat to }
    requires drawn { IsDrawn ray.dx ray.dy from to }
    requires short_right { unsigned_abs ray.dx ≤ 2 }
    requires short_up { unsigned_abs ray.dy ≤ 2 }
    ensures { IfOk result (λ f. tree_of f ≡ line_tree ray.dx ray.dy from to) }
{
    if ray.dx == 0 {
        difference(alloc, to.x, from.x, Rel::Eq, 0)
    } else if ray.dy == 0 {
        difference(alloc, to.y, from.y, Rel::Eq, 0)
    } else {
        slanting(alloc, ray, from, to)
    }
}

/// How far a stretch goes.
#[derive(Clone, Copy, PartialEq, Eq)]
pub(crate) enum Extent {
    /// Up to its end, inclusive.
    Onto,
    /// Up to the square before its end.
    Before,
}

impl Extent {
    /// Returns the maximum by which a square may be past the end.
    fn bound(self) -> i32
        ensures bound { result ≡ past self }
        ensures low { negsuc 999 ≤ℤ result }
        ensures high { result ≤ℤ pos 1000 }
    {
        match self {
            Extent::Onto => 0,
            Extent::Before => -1,
        }
    }
}

/// Returns the atom that x - y in the direction of the step is at most the bound.
fn ordered(alloc: Global, step: i8, x: Var, y: Var, bound: i32) -> Result<Formula, AllocError>
    requires apart { x.0 ≢ y.0 }
    requires low { negsuc 999 ≤ℤ bound }
    requires high { bound ≤ℤ pos 1000 }
    ensures { IfOk result (λ f. tree_of f ≡ ordered_tree step x y bound) }
{
    if step >= 0 {
        difference(alloc, x, y, Rel::Le, bound)
    } else {
        difference(alloc, y, x, Rel::Le, bound)
    }
}

/// Returns the atom that the end is ahead of the start in the direction of the ray, or (with `Onto`) level with it.
pub(crate) fn ahead(
    alloc: Global,
    ray: Ray,
    from: Seat,
    to: Seat,
    extent: Extent,
) -> Result<Formula, AllocError>
    requires { IsCounted ray.dx ray.dy from to }
    ensures { IfOk result (λ f. tree_of f ≡ ahead_tree ray.dx ray.dy from to extent) }
{
    let bound = extent.bound();
    if ray.dx.unsigned_abs() == 1 {
        ordered(alloc, ray.dx, from.x, to.x, bound)
    } else {
        ordered(alloc, ray.dy, from.y, to.y, bound)
    }
}

/// Returns the formula that the square of the seat is one of the stretch. A ray of one step has only its end, whatever the extent.
pub(crate) fn on(alloc: Global, stretch: Stretch, middle: Seat) -> Result<Formula, AllocError>
    requires middle { IsSeat middle }
    requires first { AreApart stretch.from middle }
    requires last { AreApart middle stretch.to }
    ensures { IfOk result (λ f. tree_of f ≡ on_stretch stretch middle) }
{
    let Stretch { ray, from, to, .. } = stretch;
    if ray.far {
        let line = line(alloc, ray, from, middle)?;
        let after_start = ahead(alloc, ray, from, middle, Extent::Before)?;
        let started = both(alloc, line, after_start)?;
        let up_to_end = ahead(alloc, ray, middle, to, stretch.extent)?;
        both(alloc, started, up_to_end)
    } else {
        let across = difference(alloc, middle.x, to.x, Rel::Eq, 0)?;
        both(
            alloc,
            across,
            difference(alloc, middle.y, to.y, Rel::Eq, 0)?,
        )
    }
}
