//! A cheap test whether subtracting a formula leaves a set unchanged: its first conjunct is disjoint from the set. Then
//! the sets are not combined. If in addition the budget has room for all products of states of the formula's parts, no
//! step of the formula can exceed the budget, and it is not compiled either.

ghost use Rattle.std.specs.Prelude.{◌≡◌, ◌<◌, ◌≤◌, ◌^◌, None, IfOk, IfSome, IsTrue, MatchOption, length};
ghost use Rattle.lin_formula.specs.Tree as tree;
ghost use Rattle.lin_formula.specs.TreeOf.{tree_of};
ghost use Rattle.line_engine.specs.Misses.{FitsWith, IsAsked, IsMadeOf, IsMissed, IsPlain, IsProductOf, IsSized, lead};

use crate::work::EngineState;
use auto_core::Auto;
use auto_disjoint::are_disjoint;
use formula_auto::{CompileError, SetTable};
use lin_formula::Formula;
use std::alloc::AllocError;

/// What Not is of.
fn denied(f: &Formula) -> Option<&Formula>
    ensures some { IfSome result (λ inner. tree_of f.now ≡ tree.Not (tree_of inner.now)) }
    ensures none { result ≡ None → (t : tree.Tree) → lead (tree.And t (tree_of f.now)) ≡ tree.And t (tree_of f.now) }
{
    match f {
        Formula::Not(inner) => Some(inner),
        _ => None,
    }
}

/// The first formula of a chain of And, each further one of which is Not of a formula.
fn lead_of(f: &Formula) -> &Formula
    ensures { tree_of result.now ≡ lead (tree_of f.now) }
{
    match f {
        Formula::And(left, right) => match denied(right) {
            Some(_) => lead_of(left),
            None => f,
        },
        _ => f,
    }
}

impl EngineState {
    /// Compiles a formula that names no set. Returns `None` if a step of it exceeds the budget.
    fn plain(&mut self, f: &Formula) -> Result<Option<Auto>, AllocError>
        requires plain { IsPlain (tree_of f.now) }
        ensures made { IfOk result (λ made. IfSome made (IsMadeOf (tree_of f.now) self.old.memo.budget)) }
        ensures same { self.new ≡ self.old }
    {
        let none = SetTable::new(self.alloc);
        let mut meets = self.memo.meets(self.alloc, &none);
        match self.memo.compile_uncached(self.alloc, f, &mut meets) {
            Ok(a) => Ok(Some(a)),
            Err(CompileError::Over { .. }) => Ok(None),
            Err(CompileError::Memory) => Err(AllocError),
        }
    }

    /// How many states the automaton of a formula has.
    fn size_as_made(&mut self, f: &Formula) -> Result<Option<u32>, AllocError>
        requires plain { IsPlain (tree_of f.now) }
        ensures size { IfOk result (λ size. IfSome size (IsSized (tree_of f.now) self.old.memo.budget)) }
        ensures same { self.new ≡ self.old }
    {
        match self.plain(f)? {
            Some(a) => Ok(Some(a.states())),
            None => Ok(None),
        }
    }

    /// How many tuples of states the automata have of which a chain is made, if they are within the budget.
    fn size_by_parts(&mut self, f: &Formula) -> Result<Option<u32>, AllocError>
        requires plain { IsPlain (tree_of f.now) }
        ensures size { IfOk result (λ size. IfSome size (IsSized (tree_of f.now) self.old.memo.budget)) }
        ensures same { self.new ≡ self.old }
    {
        match f {
            Formula::And(left, right) => match denied(right) {
                Some(out) => {
                    let all = self.size_by_parts(left)?;
                    let out = self.size_as_made(out)?;
                    Ok(self.product(all, out))
                }
                None => self.size_as_made(f),
            },
            _ => self.size_as_made(f),
        }
    }

    /// The product of two numbers, if it is within the budget.
    fn product(&self, one: Option<u32>, other: Option<u32>) -> Option<u32>
        ensures { IfSome result (IsProductOf one other self.now.memo.budget) }
    {
        let product = u64::from(one?) * u64::from(other?);
        let most = self.memo.budget().states();
        if product <= u64::from(most) {
            Some(product as u32)
        } else {
            None
        }
    }

    /// Returns whether the budget has room for the product of `own` states and those of a formula, by its parts or by its
    /// automaton.
    fn fits_with(&mut self, own: u32, f: &Formula) -> Result<bool, AllocError>
        requires plain { IsPlain (tree_of f.now) }
        ensures fits { IfOk result (λ fits. IsTrue fits → FitsWith (tree_of f.now) self.old.memo.budget own) }
        ensures same { self.new ≡ self.old }
    {
        let by_parts = self.size_by_parts(f)?;
        if self.product(Some(own), by_parts).is_some() {
            return Ok(true);
        }
        let as_made = self.size_as_made(f)?;
        Ok(self.product(Some(own), as_made).is_some())
    }

    /// Returns true only if subtracting the formula leaves the set unchanged and no step of that exceeds the budget.
    pub(crate) fn misses(&mut self, set: &Auto, f: &Formula) -> Result<bool, AllocError>
        requires { IsAsked set.now (tree_of f.now) }
        ensures missed { IfOk result (λ missed. IsTrue missed → IsMissed set.now (tree_of f.now) self.old.memo.budget) }
        ensures same { self.new ≡ self.old }
    {
        let Some(first) = self.plain(lead_of(f))? else {
            return Ok(false);
        };
        if !are_disjoint(self.alloc, set, &first)? {
            return Ok(false);
        }
        self.fits_with(set.states(), f)
    }
}
