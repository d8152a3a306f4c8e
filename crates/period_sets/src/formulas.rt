//! The formula that tests a period. Functions fail only if an allocation fails.
ghost use Rattle.std.specs.Prelude.{◌≡◌, ◌≤◌, IfOk, [], ◌∷◌, pos, negsuc};
ghost use Rattle.track_word.specs.declared.atoms.Rel.TheVariants.{Le, Eq};
ghost use Rattle.lin_formula.specs.Tree as tree;
ghost use Rattle.lin_formula.specs.TreeOf.{tree_of};
ghost use Rattle.period_sets.specs.Question as question;

use crate::periodic::MOST_PERIOD;
use lin_formula::{Formula, LinWhy, SetId, among, and, ex, lin, not, or};
use std::alloc::{AllocError, Global};
use track_word::{Rel, Var};

/// The variable of the members.
const T: Var = Var(18);

/// An auxiliary variable.
const U: Var = Var(19);

/// The number of steps of the formula.
pub const STEPS: u32 = 8;

/// Returns the formula that t is positive and exactly one of t and t + q is in the set.
#[tactic(auto, unfolding(crate::specs::Question::differs))]
pub(crate) fn differs(alloc: Global, q: u8) -> Result<Formula, AllocError>
    requires { q ≤ MOST_PERIOD }
    ensures { IfOk result (λ f. tree_of f ≡ question.differs q) }
{
    let leaves = both(
        alloc,
        is_in(alloc, T)?,
        denied(alloc, is_in_later(alloc, q)?)?,
    )?;
    let enters = both(
        alloc,
        denied(alloc, is_in(alloc, T)?)?,
        is_in_later(alloc, q)?,
    )?;
    let changes = either(alloc, leaves, enters)?;
    both(alloc, is_positive(alloc)?, changes)
}

/// Returns the formula that the number is in the set.
fn is_in(alloc: Global, var: Var) -> Result<Formula, AllocError>
    ensures { IfOk result (λ f. tree_of f ≡ question.is_in var) }
{
    let made = among(alloc, SetId(0), &[var])?;
    Ok(made)
}

/// Returns the formula that t + q is in the set.
fn is_in_later(alloc: Global, q: u8) -> Result<Formula, AllocError>
    requires { q ≤ MOST_PERIOD }
    ensures { IfOk result (λ f. tree_of f ≡ question.is_in_later q) }
{
    let later = is_later(alloc, q)?;
    let member = is_in(alloc, U)?;
    some(alloc, U, both(alloc, later, member)?)
}

/// Returns the formula that the auxiliary number is t + q.
fn is_later(alloc: Global, q: u8) -> Result<Formula, AllocError>
    requires { q ≤ MOST_PERIOD }
    ensures { IfOk result (λ f. tree_of f ≡ tree.Lin ((pos 1, question.u_var) ∷ (negsuc 0, question.t_var) ∷ []) Eq (pos q)) }
{
    match lin(alloc, &[(1, U), (-1, T)], Rel::Eq, i32::from(q)) {
        Ok(f) => Ok(f),
        Err(LinWhy::Memory) => Err(AllocError),
        Err(_) => unreachable!(),
    }
}

/// Returns the formula that t is positive.
fn is_positive(alloc: Global) -> Result<Formula, AllocError>
    ensures { IfOk result (λ f. tree_of f ≡ tree.Lin ((negsuc 0, question.t_var) ∷ []) Le (negsuc 0)) }
{
    match lin(alloc, &[(-1, T)], Rel::Le, -1) {
        Ok(f) => Ok(f),
        Err(LinWhy::Memory) => Err(AllocError),
        Err(_) => unreachable!(),
    }
}

/// Returns the negation.
fn denied(alloc: Global, f: Formula) -> Result<Formula, AllocError>
    ensures { IfOk result (λ made. tree_of made ≡ tree.Not (tree_of f)) }
{
    match not(alloc, f) {
        Ok(made) => Ok(made),
        Err(_) => Err(AllocError),
    }
}

/// Returns the conjunction.
fn both(alloc: Global, f: Formula, g: Formula) -> Result<Formula, AllocError>
    ensures { IfOk result (λ made. tree_of made ≡ tree.And (tree_of f) (tree_of g)) }
{
    match and(alloc, f, g) {
        Ok(made) => Ok(made),
        Err(_) => Err(AllocError),
    }
}

/// Returns the disjunction.
fn either(alloc: Global, f: Formula, g: Formula) -> Result<Formula, AllocError>
    ensures { IfOk result (λ made. tree_of made ≡ tree.Or (tree_of f) (tree_of g)) }
{
    match or(alloc, f, g) {
        Ok(made) => Ok(made),
        Err(_) => Err(AllocError),
    }
}

/// Returns the existential quantification of a variable.
fn some(alloc: Global, var: Var, f: Formula) -> Result<Formula, AllocError>
    ensures { IfOk result (λ made. tree_of made ≡ tree.Ex var (tree_of f)) }
{
    match ex(alloc, var, f) {
        Ok(made) => Ok(made),
        Err(_) => Err(AllocError),
    }
}
