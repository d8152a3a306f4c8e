//! Comparisons of places, as formulas.

ghost use Rattle.std.specs.Prelude.{◌≡◌, IfOk};
ghost use Rattle.track_word.specs.Atom.{IsAtom, IsBound};
ghost use Rattle.lin_formula.specs.Tree as tree;
ghost use Rattle.lin_formula.specs.TreeOf.{tree_of};
ghost use Rattle.line_formula.specs.Atoms.{gap_tree, held};
ghost use Rattle.line_formula.specs.Places.{home};
ghost use Rattle.line_formula.specs.Rules.{reached as reached_tree};
ghost use Rattle.line_formula.specs.Small.{AreTwo, IsSmallGap, IsSmallRay};

use crate::gap::{Gap, constant, measure};
use crate::scene::Scene;
use crate::terms::{HELD, terms, terms_less_next};
use game_rules::Ray;
use lin_formula::Formula;
use std::alloc::{AllocError, Global};
use track_word::{Rel, Var};

/// Returns the conjunction.
pub(crate) fn both(alloc: Global, first: Formula, second: Formula) -> Result<Formula, AllocError>
    ensures { IfOk result (λ f. tree_of f ≡ tree.And (tree_of first) (tree_of second)) }
{
    match lin_formula::and(alloc, first, second) {
        Ok(f) => Ok(f),
        Err(_) => Err(AllocError),
    }
}

/// Returns the negation. Errors: an allocation failed.
pub fn not(alloc: Global, formula: Formula) -> Result<Formula, AllocError>
    ensures { IfOk result (λ f. tree_of f ≡ tree.Not (tree_of formula)) }
{
    match lin_formula::not(alloc, formula) {
        Ok(f) => Ok(f),
        Err(_) => Err(AllocError),
    }
}

/// Returns the comparison of the sum of the terms with the bound.
pub(crate) fn sum(
    alloc: Global,
    terms: &[(i8, Var)],
    rel: Rel,
    bound: i32,
) -> Result<Formula, AllocError>
    requires { IsAtom terms.now bound }
    ensures { IfOk result (λ f. tree_of f ≡ tree.Lin terms.now rel bound) }
{
    match lin_formula::lin(alloc, terms, rel, bound) {
        Ok(f) => Ok(f),
        Err(lin_formula::LinWhy::Memory) => Err(AllocError),
        Err(_) => unreachable!(),
    }
}

/// Returns the same with the constant as the value of the held variable.
fn compared(
    alloc: Global,
    constant: i64,
    terms: &[(i8, Var)],
    rel: Rel,
    bound: i32,
) -> Result<Formula, AllocError>
    requires { IsAtom terms.now bound }
    ensures { IfOk result
        (λ f. tree_of f ≡ tree.Ex held (tree.And (tree.Value held constant) (tree.Lin terms.now rel bound))) }
{
    let sum = sum(alloc, terms, rel, bound)?;
    let inside = both(alloc, lin_formula::value(HELD, constant), sum)?;
    match lin_formula::ex(alloc, HELD, inside) {
        Ok(f) => Ok(f),
        Err(_) => Err(AllocError),
    }
}

/// Returns the comparison of the weighted gap of two men of the scene with the bound.
pub(crate) fn gap_formula(
    alloc: Global,
    scene: Scene,
    gap: Gap,
    rel: Rel,
    bound: i32,
) -> Result<Formula, AllocError>
    requires small { IsSmallGap gap }
    requires two { AreTwo scene.men.now gap.from gap.to }
    requires bound { IsBound bound }
    ensures { IfOk result
        (λ f. tree_of f ≡ gap_tree (home scene.entry.men.now) scene.entry.legs.now gap rel bound) }
{
    let constant = constant(scene.men, gap);
    let terms = terms(alloc, gap, scene.legs)?;
    compared(alloc, constant, terms.as_slice(), rel, bound)
}

/// Returns the formula that the measure from the first man to the second is at most the distance of the next leg.
pub(crate) fn reached(
    alloc: Global,
    scene: Scene,
    ray: Ray,
    from: u8,
    to: u8,
) -> Result<Formula, AllocError>
    requires small { IsSmallRay ray }
    requires two { AreTwo scene.men.now from to }
    ensures { IfOk result
        (λ f. tree_of f ≡ reached_tree (home scene.entry.men.now) scene.entry.legs.now ray from to) }
{
    let gap = measure(ray, from, to);
    let constant = constant(scene.men, gap);
    let terms = terms_less_next(alloc, gap, scene.legs)?;
    compared(alloc, constant, terms.as_slice(), Rel::Le, 0)
}
