//! Single nodes of a formula: the automaton of a node, from those of its parts, which need not be minimal. Atoms are minimized. The
//! result of a step is merged in one pass, unless it equals one of the parts. A step that exceeds the budget is repeated on minimal
//! automata.
ghost use Rattle.std.specs.Prelude.{◌≡◌, ◌≤◌, ℕ, length, IfOk, OnOk, Err};
ghost use Rattle.track_word.specs.Tracks.{with_vars};
ghost use Rattle.track_word.specs.Atom.{IsAtom};
ghost use Rattle.auto_core.specs.Integers.{DecidesIntegers};
ghost use Rattle.auto_core.specs.Reduced.{AllReached, IsReduced};
ghost use Rattle.lin_formula.specs.Tree as tree;
ghost use Rattle.lin_formula.specs.SetOf.{SetOf, members};
ghost use Rattle.formula_auto.specs.Decides.{Decides};
ghost use Rattle.formula_auto.specs.Compiled.{IsAccessible};
ghost use Rattle.auto_bool.specs.Words.{StepExceeds};
ghost use Rattle.auto_project.specs.Lifted.{ForgettingExceeds};
ghost use Rattle.formula_auto.specs.Nodes.{AcceptSame, IsNoLarger};
ghost use Rattle.formula_auto.specs.Nodes.{DecidesAmong, DecidesNot, DecidesEx, DecidesBoth};

use auto_bool::{Connective, not};
use auto_compact::renamed;
use auto_core::Auto;
use auto_minimize::{merge, merged_product_within};
use auto_project::forget_within;
use auto_reduce::reduce;
use auto_walk::Grown;
use limits::{Budget, MOST_TRACKS};
use std::alloc::{AllocError, Global};
use track_word::{Rel, Var, are_distinct};

/// Returns the automaton of a linear comparison. Errors: an allocation failed.
pub fn comparison(
    alloc: Global,
    terms: &[(i8, Var)],
    rel: Rel,
    bound: i32,
) -> Result<Auto, AllocError>
    requires { IsAtom terms.now bound }
    ensures decides { IfOk result (λ a. (e : ℕ → SetOf) → Decides a (tree.Lin terms.now rel bound) (members e)) }
    ensures reduced { IfOk result IsReduced }
{
    let a = Auto::lin(alloc, terms, rel, bound)?;
    reduced(alloc, &a)
}

/// Returns the automaton of a value of a variable. Errors: an allocation failed.
pub fn value_of(alloc: Global, var: Var, value: i64) -> Result<Auto, AllocError>
    ensures decides { IfOk result (λ a. (e : ℕ → SetOf) → Decides a (tree.Value var value) (members e)) }
    ensures reduced { IfOk result IsReduced }
{
    let a = Auto::value(alloc, var, value)?;
    reduced(alloc, &a)
}

/// Returns the automaton of a membership: the set, renamed. It is minimized only if two tracks take one variable, since then some
/// states may not be reached. Errors: an allocation failed.
pub fn membership(alloc: Global, set: &Auto, vars: &[Var]) -> Result<Auto, AllocError>
    requires size { length vars.now ≡ length set.now.tracks }
    requires integers { DecidesIntegers set.now }
    requires reached { AllReached set.now }
    ensures decides { IfOk result (DecidesAmong set.now vars.now) }
    ensures reached { IfOk result AllReached }
{
    let _ = set.tracks(); // for its invariant
    let a = renamed(alloc, set, vars)?;
    if are_distinct(vars) {
        return Ok(a);
    }
    reduced(alloc, &a)
}

/// Combines two formulas: returns the product of the automata, or if it exceeds the budget, that of the minimal ones. Errors:
/// `Over` if the step needs more states than the budget, `Memory` if an allocation fails.
pub fn joined(
    alloc: Global,
    connective: Connective,
    a: &Auto,
    b: &Auto,
    budget: Budget,
) -> Result<Auto, Grown>
    requires { length (with_vars a.now.tracks b.now.tracks) ≤ MOST_TRACKS }
    ensures decides { IfOk result (DecidesBoth connective a.now b.now) }
    ensures accessible { IfOk result (IsAccessible budget) }
    ensures within { OnOk result (¬ StepExceeds a.now b.now budget) }
    ensures over { result ≡ Err Grown.Over → StepExceeds a.now b.now budget }
{
    match product_within(alloc, connective, a, b, budget) {
        Ok(c) => Ok(c),
        Err(Grown::Memory) => Err(Grown::Memory),
        Err(Grown::Over) => reduced_product(alloc, connective, a, b, budget),
    }
}

/// Returns the merged product. Only for minimal automata does `Over` mean that the step needs more states than the budget.
fn product_within(
    alloc: Global,
    connective: Connective,
    a: &Auto,
    b: &Auto,
    budget: Budget,
) -> Result<Auto, Grown>
    requires { length (with_vars a.now.tracks b.now.tracks) ≤ MOST_TRACKS }
    ensures decides { IfOk result (DecidesBoth connective a.now b.now) }
    ensures accessible { IfOk result (IsAccessible budget) }
    ensures within { OnOk result (¬ StepExceeds a.now b.now budget) }
    ensures over { IsReduced a.now → IsReduced b.now → result ≡ Err Grown.Over → StepExceeds a.now b.now budget }
{
    merged_product_within(alloc, a, b, connective, budget)
}

fn reduced_product(
    alloc: Global,
    connective: Connective,
    a: &Auto,
    b: &Auto,
    budget: Budget,
) -> Result<Auto, Grown>
    requires { length (with_vars a.now.tracks b.now.tracks) ≤ MOST_TRACKS }
    ensures decides { IfOk result (DecidesBoth connective a.now b.now) }
    ensures accessible { IfOk result (IsAccessible budget) }
    ensures within { OnOk result (¬ StepExceeds a.now b.now budget) }
    ensures over { result ≡ Err Grown.Over → StepExceeds a.now b.now budget }
{
    let left = reduced(alloc, a)?;
    let right = reduced(alloc, b)?;
    product_within(alloc, connective, &left, &right, budget)
}

/// Returns the projection of a variable. Errors: `Over` if the step needs more states than the budget, `Memory` if an allocation
/// fails.
pub fn projection(alloc: Global, var: Var, a: &Auto, budget: Budget) -> Result<Auto, Grown>
    ensures decides { IfOk result (DecidesEx var a.now) }
    ensures accessible { IfOk result (IsAccessible budget) }
    ensures within { OnOk result (¬ ForgettingExceeds var a.now budget) }
    ensures over { result ≡ Err Grown.Over → ForgettingExceeds var a.now budget }
{
    let c = forgotten(alloc, var, a, budget)?;
    Ok(merged(alloc, &c)?)
}

/// Returns the projection of the automaton, or if it exceeds the budget, that of the minimal one.
fn forgotten(alloc: Global, var: Var, a: &Auto, budget: Budget) -> Result<Auto, Grown>
    ensures decides { IfOk result (DecidesEx var a.now) }
    ensures accessible { IfOk result (IsAccessible budget) }
    ensures within { OnOk result (¬ ForgettingExceeds var a.now budget) }
    ensures over { result ≡ Err Grown.Over → ForgettingExceeds var a.now budget }
{
    match forgotten_within(alloc, var, a, budget) {
        Ok(c) => Ok(c),
        Err(Grown::Memory) => Err(Grown::Memory),
        Err(Grown::Over) => reduced_forgotten(alloc, var, a, budget),
    }
}

/// Returns the projection. Only for a minimal automaton does `Over` mean that the step needs more states than the budget.
fn forgotten_within(alloc: Global, var: Var, a: &Auto, budget: Budget) -> Result<Auto, Grown>
    ensures decides { IfOk result (DecidesEx var a.now) }
    ensures accessible { IfOk result (IsAccessible budget) }
    ensures within { OnOk result (¬ ForgettingExceeds var a.now budget) }
    ensures over { IsReduced a.now → result ≡ Err Grown.Over → ForgettingExceeds var a.now budget }
{
    let _ = a.states(); // for its invariant
    forget_within(alloc, a, var, budget)
}

fn reduced_forgotten(alloc: Global, var: Var, a: &Auto, budget: Budget) -> Result<Auto, Grown>
    ensures decides { IfOk result (DecidesEx var a.now) }
    ensures accessible { IfOk result (IsAccessible budget) }
    ensures within { OnOk result (¬ ForgettingExceeds var a.now budget) }
    ensures over { result ≡ Err Grown.Over → ForgettingExceeds var a.now budget }
{
    let inner = reduced(alloc, a)?;
    forgotten_within(alloc, var, &inner, budget)
}

/// Returns the complement. Errors: an allocation failed.
pub fn complement(alloc: Global, a: &Auto) -> Result<Auto, AllocError>
    ensures decides { IfOk result (DecidesNot a.now) }
    ensures reached { AllReached a.now → IfOk result AllReached }
    ensures fewer { IfOk result (λ n. IsNoLarger n a.now) }
{
    not(alloc, a)
}

/// Returns the minimal automaton of the same words. Errors: an allocation failed.
pub fn reduced(alloc: Global, a: &Auto) -> Result<Auto, AllocError>
    ensures reduced { IfOk result IsReduced }
    ensures same { IfOk result (AcceptSame a.now) }
    ensures fewer { IfOk result (λ m. length m.accept ≤ length a.now.accept) }
{
    reduce(alloc, a)
}

/// Returns the automaton of the same words with states merged in one pass.
fn merged(alloc: Global, a: &Auto) -> Result<Auto, AllocError>
    ensures same { IfOk result (AcceptSame a.now) }
    ensures accessible { IfOk result (λ m. (budget : ℕ) → IsAccessible budget a.now → IsAccessible budget m) }
{
    merge(alloc, a)
}
