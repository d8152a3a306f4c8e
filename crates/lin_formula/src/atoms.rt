//! Atomic formulas.
ghost use Rattle.std.specs.Prelude.{◌≡◌, ◌↔◌, ◌≢◌, IfOk, IfErr, IsTrue, All};
ghost use Rattle.std.specs.Bool.{OnTrue, OnFalse};
ghost use Rattle.track_word.specs.Atom.{IsAtom, IsDistinct, IsCoefficient};
ghost use Rattle.lin_formula.specs.Tree as tree;
ghost use Rattle.lin_formula.specs.Tree.{IsWellMade};
ghost use Rattle.lin_formula.specs.TreeOf.{tree_of};
ghost use Rattle.lin_formula.specs.Refused.{IsWhy};

use crate::formula::{Formula, SetId};
use crate::lists::{Terms, Vars};
use std::alloc::{AllocError, Global};
use track_word::{Rel, Var};

/// Why there is no linear comparison with these parts.
#[derive(Clone, Copy, PartialEq, Eq)]
pub enum LinWhy {
    /// There are no terms, more than eight, or two with the same variable.
    Terms,
    /// A coefficient is 0, or outside -64 to 64.
    Coefficient,
    /// The bound is outside -1000 to 1000.
    Bound,
    /// An allocation failed.
    Memory,
}

/// Returns the comparison: the sum of coefficient times variable is at most the bound, or equal to it.
/// Errors: the first of `Terms`, `Coefficient` and `Bound` that applies; `Memory` if an allocation fails.
pub fn lin(alloc: Global, terms: &[(i8, Var)], rel: Rel, bound: i32) -> Result<Formula, LinWhy>
    ensures ok { IfOk result (λ f. tree_of f ≡ tree.Lin terms.now rel bound) }
    ensures accepted { IfOk result (λ f. IsAtom terms.now bound) }
    ensures well_made { IfOk result (λ f. IsWellMade (tree_of f)) }
    ensures err { IfErr result (λ why. IsWhy why terms.now bound) }
{
    if terms.is_empty() || terms.len() > 8 {
        return Err(LinWhy::Terms);
    }
    if has_repeat(terms) {
        return Err(LinWhy::Terms);
    }
    if !are_coefficients(terms) {
        return Err(LinWhy::Coefficient);
    }
    if bound < -1000 || bound > 1000 {
        return Err(LinWhy::Bound);
    }
    match Vec::from_slice(alloc, terms) {
        Ok(items) => Ok(Formula::Lin {
            terms: Terms::new(items),
            rel,
            bound,
        }),
        Err(_) => Err(LinWhy::Memory),
    }
}

/// Returns whether each coefficient is in range.
fn are_coefficients(terms: &[(i8, Var)]) -> bool
    ensures { IsTrue result ↔ All IsCoefficient terms.now }
{
    terms.iter().all(|t| t.0 != 0 && t.0 >= -64 && t.0 <= 64)
}

/// Returns whether a variable occurs in two terms.
fn has_repeat(terms: &[(i8, Var)]) -> bool
    ensures yes { OnTrue result (IsDistinct terms.now → ⊥) }
    ensures no { OnFalse result (IsDistinct terms.now) }
{
    match terms {
        [] => false,
        [first, rest @ ..] => stands_in(first.1, rest) || has_repeat(rest),
    }
}

/// Returns whether the variable occurs in one of the terms.
fn stands_in(var: Var, terms: &[(i8, Var)]) -> bool
    ensures yes { OnTrue result (All (λ t. t.1 ≢ var) terms.now → ⊥) }
    ensures no { OnFalse result (All (λ t. t.1 ≢ var) terms.now) }
{
    for t in terms {
        if t.1 == var {
            return true;
        }
    }
    false
}

/// Returns the formula that the variable has the value.
pub fn value(var: Var, value: i64) -> Formula
    ensures is { tree_of result ≡ tree.Value var value }
    ensures well_made { IsWellMade (tree_of result) }
{
    Formula::Value { var, value }
}

/// Returns the membership: the values of the variables, in order, are a member of the set. Errors: an allocation failed.
pub fn among(alloc: Global, set: SetId, vars: &[Var]) -> Result<Formula, AllocError>
    ensures ok { IfOk result (λ f. tree_of f ≡ tree.Among set.0 vars.now) }
    ensures well_made { IfOk result (λ f. IsWellMade (tree_of f)) }
{
    Ok(Formula::Among {
        set,
        vars: Vars::new(Vec::from_slice(alloc, vars)?),
    })
}
