//! Construction of formulas. Functions fail only if an allocation fails.
ghost use Rattle.std.specs.Prelude.{◌≡◌, IfOk};
ghost use Rattle.track_word.specs.Atom.{IsAtom};
ghost use Rattle.lin_formula.specs.Tree as tree;
ghost use Rattle.lin_formula.specs.TreeOf.{tree_of};
ghost use Rattle.arith_desk.specs.Typed.{bind, join};

use crate::words::{BinaryOp, Quantifier};
use lin_formula::{Formula, LinWhy};
use std::alloc::{AllocError, Global};
use track_word::{Rel, Var};

/// Returns the comparison of the sum of the terms with the bound.
pub(crate) fn compared(
    alloc: Global,
    terms: &[(i8, Var)],
    rel: Rel,
    bound: i32,
) -> Result<Formula, AllocError>
    requires { IsAtom terms.now bound }
    ensures { IfOk result (λ f. tree_of f ≡ tree.Lin terms.now rel bound) }
{
    match lin_formula::lin(alloc, terms, rel, bound) {
        Ok(f) => Ok(f),
        Err(LinWhy::Memory) => Err(AllocError),
        Err(_) => unreachable!(),
    }
}

/// Returns the negation.
pub(crate) fn denied(alloc: Global, f: Formula) -> Result<Formula, AllocError>
    ensures { IfOk result (λ made. tree_of made ≡ tree.Not (tree_of f)) }
{
    match lin_formula::not(alloc, f) {
        Ok(made) => Ok(made),
        Err(_) => Err(AllocError),
    }
}

/// Returns the conjunction or disjunction.
pub(crate) fn joined(
    alloc: Global,
    connective: BinaryOp,
    f: Formula,
    g: Formula,
) -> Result<Formula, AllocError>
    ensures { IfOk result (λ made. tree_of made ≡ join connective (tree_of f) (tree_of g)) }
{
    let made = match connective {
        BinaryOp::And => lin_formula::and(alloc, f, g),
        BinaryOp::Or => lin_formula::or(alloc, f, g),
    };
    match made {
        Ok(made) => Ok(made),
        Err(_) => Err(AllocError),
    }
}

/// Returns the existential quantification.
fn some(alloc: Global, var: Var, f: Formula) -> Result<Formula, AllocError>
    ensures { IfOk result (λ made. tree_of made ≡ tree.Ex var (tree_of f)) }
{
    match lin_formula::ex(alloc, var, f) {
        Ok(made) => Ok(made),
        Err(_) => Err(AllocError),
    }
}

/// Returns the universal quantification.
fn every(alloc: Global, var: Var, f: Formula) -> Result<Formula, AllocError>
    ensures { IfOk result (λ made. tree_of made ≡ tree.Not (tree.Ex var (tree.Not (tree_of f)))) }
{
    let fails = denied(alloc, f)?;
    let somewhere = some(alloc, var, fails)?;
    denied(alloc, somewhere)
}

/// Returns the quantification of a variable.
pub(crate) fn bound(
    alloc: Global,
    quantifier: Quantifier,
    var: Var,
    f: Formula,
) -> Result<Formula, AllocError>
    ensures { IfOk result (λ made. tree_of made ≡ bind quantifier var (tree_of f)) }
{
    match quantifier {
        Quantifier::Ex => some(alloc, var, f),
        Quantifier::All => every(alloc, var, f),
    }
}
