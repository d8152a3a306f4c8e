//! Truth of closed formulas.
ghost use Rattle.std.specs.Prelude.{◌≡◌, ◌↔◌, ◌⊎◌, ◌≤◌, ◌^◌, [], ◌∷◌, pos, length, IfOk, IfErr, IfSome, OnOk, IsTrue, None};
ghost use Rattle.auto_core.specs.Integers.{DecidesIntegers, IsAccepted};
ghost use Rattle.lin_formula.specs.Tree as tree;
ghost use Rattle.lin_formula.specs.Tree.{steps};
ghost use Rattle.lin_formula.specs.TreeOf.{tree_of};
ghost use Rattle.lin_formula.specs.Free.{IsFree};
ghost use Rattle.lin_formula.specs.SetOf.{tables};
ghost use Rattle.formula_auto.specs.Step.{FirstOver};
ghost use Rattle.formula_auto.specs.Compiled.{IsCompileError};
ghost use Rattle.arith_desk.specs.Nearer.{nearer_of};
ghost use Rattle.arith_desk.specs.Question.{IsQuestion};
ghost use Rattle.arith_desk.specs.Truth.{IsNearestFound, IsOver, IsPlainTruth, IsTruth, IsWithin, no_sets};
ghost use Rattle.arith_desk.specs.Truth.{with_zero as with_zero_tree};

use crate::building::joined;
use crate::slots::is_one_of;
use crate::words::BinaryOp;
use auto_core::Auto;
use auto_reduce::is_empty;
use auto_search::{Search, TupleRay};
use formula_auto::{CompileError, SetTable, compile};
use limits::Budget;
use lin_formula::{Formula, copy, free_vars, value};
use std::alloc::{AllocError, Global};
use track_word::Var;

/// The maximum distance from 0 of a number that is searched, 2^64.
const FAR: u128 = 0x1_0000_0000_0000_0000;

/// The truth of a closed formula, with a witness if it is existential.
#[derive(Clone, Copy, PartialEq, Eq)]
pub enum Truth {
    False,
    True,
    /// True with a witness: the number nearest to 0, and the positive one of two that are equally near.
    Witness(i128),
    /// True, but there is no witness from -2^64 to 2^64.
    WitnessWide,
}

/// Decides a closed formula. The budget limits the states of each step. Recurses one call per level. Errors: `Over` with the number
/// of the first step that exceeds the budget, `Memory` if an allocation fails.
pub fn decide_closed(alloc: Global, f: &Formula, budget: Budget) -> Result<Truth, CompileError>
    requires question { IsQuestion (tree_of f.now) }
    ensures truth { IfOk result (IsTruth (tree_of f.now)) }
    ensures within { OnOk result (IsWithin (tree_of f.now) budget) }
    ensures over { IfErr result (IsOver (tree_of f.now) budget) }
{
    match f {
        Formula::Ex { var, body } => {
            let free = is_free(alloc, *var, body)?;
            if free {
                return seek(alloc, *var, body, budget);
            }
            decide(alloc, f, budget)
        }
        _ => decide(alloc, f, budget),
    }
}

/// Returns whether the variable is free in the formula.
fn is_free(alloc: Global, var: Var, f: &Formula) -> Result<bool, AllocError>
    ensures { IfOk result (λ free. IsTrue free ↔ IsFree var (tree_of f.now)) }
{
    let free = free_vars(alloc, f)?;
    Ok(is_one_of(var, free.as_slice()))
}

/// Decides the formula without a witness.
fn decide(alloc: Global, f: &Formula, budget: Budget) -> Result<Truth, CompileError>
    requires question { IsQuestion (tree_of f.now) }
    ensures truth { IfOk result (IsPlainTruth (tree_of f.now)) }
    ensures within { OnOk result (FirstOver (steps (tree_of f.now)) no_sets budget 1 None) }
    ensures over { IfErr result (IsCompileError (tree_of f.now) (tables []) 0 budget) }
{
    let sets = SetTable::new(alloc);
    let a = compile(alloc, f, &sets, budget)?;
    if is_empty(&a) {
        Ok(Truth::False)
    } else {
        Ok(Truth::True)
    }
}

/// Searches the witness of an existential formula that is nearest to 0.
fn seek(alloc: Global, var: Var, body: &Formula, budget: Budget) -> Result<Truth, CompileError>
    requires question { IsQuestion (tree.Ex var (tree_of body.now)) }
    requires free { IsFree var (tree_of body.now) }
    ensures truth { IfOk result (IsTruth (tree.Ex var (tree_of body.now))) }
    ensures within { OnOk result (FirstOver (steps (with_zero_tree (tree_of body.now))) no_sets budget 1 None) }
    ensures over { IfErr result (IsCompileError (with_zero_tree (tree_of body.now)) (tables []) 0 budget) }
{
    let f = with_zero(alloc, body)?;
    let sets = SetTable::new(alloc);
    let a = compile(alloc, &f, &sets, budget)?;
    if is_empty(&a) {
        return Ok(Truth::False);
    }
    let mut search = Search::reserve(alloc, a.states())?;
    match nearest(&mut search, &a) {
        Some(number) => Ok(Truth::Witness(number)),
        None => Ok(Truth::WitnessWide),
    }
}

/// Returns the conjunction of the formula and of an additional variable's being 0.
fn with_zero(alloc: Global, f: &Formula) -> Result<Formula, AllocError>
    ensures { IfOk result (λ made. tree_of made ≡ with_zero_tree (tree_of f.now)) }
{
    joined(alloc, BinaryOp::And, copy(alloc, f)?, value(Var(16), 0))
}

/// Returns the number nearest to 0 whose pair with 0 is in the set.
fn nearest(search: &mut Search, a: &Auto) -> Option<i128>
    requires decides { DecidesIntegers a.now }
    requires room { length a.now.accept ≤ search.old }
    requires tracks { length a.now.tracks ≡ 2 }
    ensures { IsNearestFound (λ n. IsAccepted a.now (n ∷ pos 0 ∷ [])) result }
{
    let origin = [0, 0];
    let up = TupleRay {
        fixed: &origin,
        x_track: 0,
        y_track: 1,
        dx: 1,
        dy: 0,
    };
    let down = TupleRay {
        fixed: &origin,
        x_track: 0,
        y_track: 1,
        dx: -1,
        dy: 0,
    };
    let above = search.least_on_ray(a, &up, 0, FAR);
    let below = search.least_on_ray(a, &down, 1, FAR);
    nearer(above, below)
}

/// Returns the nearer of two numbers, given by their distances above and below 0.
fn nearer(above: Option<u128>, below: Option<u128>) -> Option<i128>
    requires above { IfSome above (λ t. t ≤ 2 ^ 64) }
    requires below { IfSome below (λ t. (1 ≤ t) × (t ≤ 2 ^ 64)) }
    ensures { result ≡ nearer_of above below }
{
    match (above, below) {
        (None, None) => None,
        (Some(above), None) => Some(above as i128),
        (None, Some(below)) => Some(-(below as i128)),
        (Some(above), Some(below)) => {
            if below < above {
                Some(-(below as i128))
            } else {
                Some(above as i128)
            }
        }
    }
}
