//! Formulas and their constructors.
ghost use Rattle.std.specs.Prelude.{◌≡◌, IfOk, IfErr};
ghost use Rattle.lin_formula.specs.Tree as tree;
ghost use Rattle.lin_formula.specs.Tree.{IsWellMade, IsWellMadeFrom};
ghost use Rattle.lin_formula.specs.TreeOf.{tree_of};

use crate::lists::{Terms, Vars};
use std::alloc::Global;
use track_word::{Rel, Var};

/// The name of a set of integer tuples.
#[derive(Clone, Copy, PartialEq, Eq, PartialOrd, Ord, Hash)]
pub struct SetId(pub u32);

/// A formula over the integers. Its depth is limited by the stack only: functions on formulas recurse one call per level.
#[derive(Drop)]
pub enum Formula {
    /// The sum of coefficient times variable is at most the bound, or equal to it.
    Lin { terms: Terms, rel: Rel, bound: i32 },
    /// The variable has the value.
    Value { var: Var, value: i64 },
    /// The values of the variables, in order, are a member of the set. A variable may occur twice.
    Among { set: SetId, vars: Vars },
    /// The formula is false.
    Not(Box<Formula>),
    /// Both formulas are true.
    And(Box<Formula>, Box<Formula>),
    /// At least one of the formulas is true.
    Or(Box<Formula>, Box<Formula>),
    /// The body is true for some integer, of any size, as the variable's value.
    Ex { var: Var, body: Box<Formula> },
}

/// Returns the negation of a formula. If an allocation fails, returns `f` as the error.
pub fn not(alloc: Global, f: Formula) -> Result<Formula, Formula>
    ensures ok { IfOk result (λ made. tree_of made ≡ tree.Not (tree_of f)) }
    ensures well_made { IfOk result (λ made. IsWellMade (tree_of f) → IsWellMade (tree_of made)) }
    ensures handed_back { IfErr result (λ back. back ≡ f) }
{
    match Box::new(alloc, f) {
        Ok(f) => Ok(Formula::Not(f)),
        Err(failed) => Err(failed.value),
    }
}

/// Returns the conjunction of two formulas. If an allocation fails, returns both as the error.
pub fn and(alloc: Global, a: Formula, b: Formula) -> Result<Formula, (Formula, Formula)>
    ensures ok { IfOk result (λ made. tree_of made ≡ tree.And (tree_of a) (tree_of b)) }
    ensures well_made { IfOk result (λ made. IsWellMadeFrom (tree_of a) (tree_of b) (tree_of made)) }
    ensures handed_back { IfErr result (λ back. (back.0 ≡ a) × (back.1 ≡ b)) }
{
    let (a, b) = boxed(alloc, a, b)?;
    Ok(Formula::And(a, b))
}

/// Returns the disjunction of two formulas. If an allocation fails, returns both as the error.
pub fn or(alloc: Global, a: Formula, b: Formula) -> Result<Formula, (Formula, Formula)>
    ensures ok { IfOk result (λ made. tree_of made ≡ tree.Or (tree_of a) (tree_of b)) }
    ensures well_made { IfOk result (λ made. IsWellMadeFrom (tree_of a) (tree_of b) (tree_of made)) }
    ensures handed_back { IfErr result (λ back. (back.0 ≡ a) × (back.1 ≡ b)) }
{
    let (a, b) = boxed(alloc, a, b)?;
    Ok(Formula::Or(a, b))
}

/// Returns the formula that `body` is true for some integer as the variable's value. If an allocation fails, returns `body` as the
/// error.
pub fn ex(alloc: Global, var: Var, body: Formula) -> Result<Formula, Formula>
    ensures ok { IfOk result (λ made. tree_of made ≡ tree.Ex var (tree_of body)) }
    ensures well_made { IfOk result (λ made. IsWellMade (tree_of body) → IsWellMade (tree_of made)) }
    ensures handed_back { IfErr result (λ back. back ≡ body) }
{
    match Box::new(alloc, body) {
        Ok(body) => Ok(Formula::Ex { var, body }),
        Err(failed) => Err(failed.value),
    }
}

/// Returns both formulas in boxes. If an allocation fails, returns both as the error.
fn boxed(
    alloc: Global,
    a: Formula,
    b: Formula,
) -> Result<(Box<Formula>, Box<Formula>), (Formula, Formula)>
    ensures ok { IfOk result (λ made. (made.0.value ≡ a) × (made.1.value ≡ b)) }
    ensures handed_back { IfErr result (λ back. (back.0 ≡ a) × (back.1 ≡ b)) }
{
    match Box::new(alloc, a) {
        Err(failed) => Err((failed.value, b)),
        Ok(a) => match Box::new(alloc, b) {
            Err(failed) => Err((Box::into_inner(a), failed.value)),
            Ok(b) => Ok((a, b)),
        },
    }
}
