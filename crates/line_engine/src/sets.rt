//! Sets of distances: narrowed, joined and shortened. An empty set is `None`.

ghost use Rattle.std.specs.Prelude.{◌≡◌, ◌≤◌, ◌+◌, ◌^◌, ◌++◌, ◌∷◌, [], ℕ, suc, IfOk};
ghost use Rattle.lin_formula.specs.SetOf.{Table, as_set};
ghost use Rattle.lin_formula.specs.Tree as tree;
ghost use Rattle.lin_formula.specs.TreeOf.{tree_of};
ghost use Rattle.rule_formula.specs.Seats.{var};
ghost use Rattle.line_plan.specs.Plan as plan;
ghost use Rattle.line_plan.specs.Plan.{distances as distances_to};
ghost use Rattle.set_plan.specs.Unite as unite;
ghost use Rattle.line_engine.specs.Answers.{Answers, IsFilled, IsFilledOn, IsOneSet, IsPartOf, made_at, rest_of};

use crate::errors::CrowdError;
use crate::node::distances;
use crate::work::EngineState;
use auto_core::Auto;
use formula_auto::SetTable;
use lin_formula::{Formula, SetId, among};
use line_formula::not;
use set_plan::step_count;
use std::alloc::{AllocError, Global};
use track_word::Var;

/// The names of the sets of a table of one set or two.
const FIRST: SetId = SetId(0);

const SECOND: SetId = SetId(1);

/// Returns a table of one set.
pub(crate) fn one_set(alloc: Global, a: Auto) -> Result<SetTable, AllocError>
    ensures { IfOk result (λ sets. sets ≡ a ∷ []) }
{
    let mut sets = SetTable::new(alloc);
    match sets.put(a) {
        Ok(_) => Ok(sets),
        Err(_) => Err(AllocError),
    }
}

/// A table of two sets.
fn two_sets(alloc: Global, a: Auto, b: Auto) -> Result<SetTable, AllocError>
    ensures { IfOk result (λ sets. sets ≡ a ∷ b ∷ []) }
{
    let mut sets = one_set(alloc, a)?;
    match sets.put(b) {
        Ok(_) => Ok(sets),
        Err(_) => Err(AllocError),
    }
}

/// Returns the formula that `count` distances are in the set of this name.
fn in_set(alloc: Global, set: SetId, count: u8) -> Result<Formula, AllocError>
    requires { count ≤ 16 }
    ensures { IfOk result (λ f. tree_of f ≡ tree.Among set.0 (distances_to count)) }
{
    let vars = distances(alloc, count)?;
    let f = among(alloc, set, vars.as_slice())?;
    Ok(f)
}

/// Returns the conjunction of the formulas.
fn both(alloc: Global, first: Formula, second: Formula) -> Result<Formula, AllocError>
    ensures { IfOk result (λ f. tree_of f ≡ tree.And (tree_of first) (tree_of second)) }
{
    match lin_formula::and(alloc, first, second) {
        Ok(f) => Ok(f),
        Err(_) => Err(AllocError),
    }
}

/// Returns the disjunction of the formulas.
fn either(alloc: Global, first: Formula, second: Formula) -> Result<Formula, AllocError>
    ensures { IfOk result (λ f. tree_of f ≡ tree.Or (tree_of first) (tree_of second)) }
{
    match lin_formula::or(alloc, first, second) {
        Ok(f) => Ok(f),
        Err(_) => Err(AllocError),
    }
}

/// Returns the formula that the body is true with some integer as the variable's value.
fn some(alloc: Global, var: Var, body: Formula) -> Result<Formula, AllocError>
    ensures { IfOk result (λ f. tree_of f ≡ tree.Ex var (tree_of body)) }
{
    match lin_formula::ex(alloc, var, body) {
        Ok(f) => Ok(f),
        Err(_) => Err(AllocError),
    }
}

/// Returns the formula that `count` distances are in the first set or in the second.
fn in_either(alloc: Global, count: u8) -> Result<Formula, AllocError>
    requires { count ≤ 16 }
    ensures { IfOk result (λ f. tree_of f ≡ tree.Or (tree.Among 0 (distances_to count)) (tree.Among 1 (distances_to count))) }
{
    let one = in_set(alloc, FIRST, count)?;
    let other = in_set(alloc, SECOND, count)?;
    let f = either(alloc, one, other)?;
    Ok(f)
}

/// Returns the formula that `count` distances are in the first set and not in the second.
fn in_one_alone(alloc: Global, count: u8) -> Result<Formula, AllocError>
    requires { count ≤ 16 }
    ensures { IfOk result
        (λ f. tree_of f ≡ tree.And (tree.Among 0 (distances_to count)) (tree.Not (tree.Among 1 (distances_to count)))) }
{
    let one = in_set(alloc, FIRST, count)?;
    let other = in_set(alloc, SECOND, count)?;
    let out = not(alloc, other)?;
    let f = both(alloc, one, out)?;
    Ok(f)
}

/// Returns the formula that `count` distances are in the first set, with some further one.
fn in_set_with_more(alloc: Global, count: u8) -> Result<Formula, AllocError>
    requires { count ≤ 15 }
    ensures { IfOk result (λ f. tree_of f ≡ tree.Ex (var count) (tree.Among 0 (distances_to (suc count)))) }
{
    let body = in_set(alloc, FIRST, count + 1)?;
    let f = some(alloc, Var(count), body)?;
    Ok(f)
}

/// The same of the first set without the second.
fn in_one_alone_with_more(alloc: Global, count: u8) -> Result<Formula, AllocError>
    requires { count ≤ 15 }
    ensures { IfOk result (λ f. tree_of f ≡ tree.Ex (var count)
        (tree.And (tree.Among 0 (distances_to (suc count))) (tree.Not (tree.Among 1 (distances_to (suc count)))))) }
{
    let body = in_one_alone(alloc, count + 1)?;
    let f = some(alloc, Var(count), body)?;
    Ok(f)
}

/// Returns the intersection of the table's set with the part, which may use one more distance.
pub(crate) fn narrowed(
    work: &mut EngineState,
    count: u8,
    reached: &SetTable,
    part: Formula,
) -> Result<Option<Auto>, CrowdError>
    requires few { count ≤ 6 }
    requires set { IsOneSet count reached.now }
    requires part { (n : ℕ) × IsPartOf count n (tree_of part) }
    requires room { work.old.at + 1000 ≤ 2 ^ 127 }
    ensures answers { (a : _) → reached.now ≡ a ∷ []
        → Answers (plan.narrow count (tree_of part) (Table a, work.old.at)) work.old.memo.budget (made_at work.new.at) result }
    ensures set { (n : ℕ) → IsPartOf count n (tree_of part) → IfOk result (IsFilled n) }
    ensures room { IfOk result (λ _. work.new.at ≤ work.old.at + 1000) }
    ensures budget { work.new.memo.budget ≡ work.old.memo.budget }
{
    let before = in_set(work.alloc, FIRST, count)?;
    let f = both(work.alloc, before, part)?;
    work.set_of(&f, reached)
}

/// Narrows the progress by a part.
pub(crate) fn narrow(
    work: &mut EngineState,
    count: u8,
    so_far: Option<Auto>,
    part: Formula,
) -> Result<Option<Auto>, CrowdError>
    requires few { count ≤ 6 }
    requires set { IsFilled count so_far }
    requires part { IsPartOf count count (tree_of part) }
    requires room { work.old.at + 1000 ≤ 2 ^ 127 }
    ensures answers { Answers (plan.narrow count (tree_of part) (as_set so_far, work.old.at))
        work.old.memo.budget (made_at work.new.at) result }
    ensures set { IfOk result (IsFilled count) }
    ensures room { IfOk result (λ _. work.new.at ≤ work.old.at + 1000) }
    ensures budget { work.new.memo.budget ≡ work.old.memo.budget }
{
    let Some(a) = so_far else {
        return Ok(None);
    };
    let sets = one_set(work.alloc, a)?;
    narrowed(work, count, &sets, part)
}

/// Subtracts a formula from the progress. If it is seen to subtract nothing, the set is kept as it is.
pub(crate) fn leave_out(
    work: &mut EngineState,
    count: u8,
    so_far: Option<Auto>,
    f: Formula,
) -> Result<Option<Auto>, CrowdError>
    requires few { count ≤ 6 }
    requires set { IsFilled count so_far }
    requires part { IsPartOf count count (tree.Not (tree_of f)) }
    requires room { work.old.at + 1000 ≤ 2 ^ 127 }
    ensures answers { Answers (plan.narrow count (tree.Not (tree_of f)) (as_set so_far, work.old.at))
        work.old.memo.budget (made_at work.new.at) result }
    ensures set { IfOk result (IsFilled count) }
    ensures room { IfOk result (λ _. work.new.at ≤ work.old.at + 1000) }
    ensures budget { work.new.memo.budget ≡ work.old.memo.budget }
{
    let Some(a) = so_far else {
        return Ok(None);
    };
    if work.misses(&a, &f)? {
        work.at += u128::from(step_count(&f)) + 1;
        return Ok(Some(a));
    }
    let part = not(work.alloc, f)?;
    narrow(work, count, Some(a), part)
}

/// Joins a further set to the progress.
pub(crate) fn join(
    work: &mut EngineState,
    count: u8,
    so_far: Option<Auto>,
    next: Option<Auto>,
) -> Result<Option<Auto>, CrowdError>
    requires few { count ≤ 6 }
    requires so_far { IsFilled count so_far }
    requires next { IsFilled count next }
    requires room { work.old.at + 1000 ≤ 2 ^ 127 }
    ensures answers { Answers (unite.join (distances_to count) tt (as_set so_far) (as_set next, work.old.at))
        work.old.memo.budget (made_at work.new.at) result }
    ensures set { IfOk result (IsFilled count) }
    ensures room { IfOk result (λ _. work.new.at ≤ work.old.at + 1000) }
    ensures budget { work.new.memo.budget ≡ work.old.memo.budget }
{
    let Some(a) = so_far else {
        return Ok(next);
    };
    let Some(b) = next else {
        return Ok(Some(a));
    };
    let sets = two_sets(work.alloc, a, b)?;
    let f = in_either(work.alloc, count)?;
    work.set_of(&f, &sets)
}

/// Returns the tuples of a set of `count + 1` distances without their last distance.
pub(crate) fn shortened(
    work: &mut EngineState,
    count: u8,
    set: Auto,
) -> Result<Option<Auto>, CrowdError>
    requires few { count ≤ 5 }
    requires set { IsFilledOn (distances_to (suc count)) set }
    requires room { work.old.at + 1000 ≤ 2 ^ 127 }
    ensures answers { Answers (unite.make tt work.old.at (plan.shortened count (Table set)))
        work.old.memo.budget (made_at work.new.at) result }
    ensures set { IfOk result (IsFilled count) }
    ensures room { IfOk result (λ _. work.new.at ≤ work.old.at + 1000) }
    ensures budget { work.new.memo.budget ≡ work.old.memo.budget }
{
    let sets = one_set(work.alloc, set)?;
    let f = in_set_with_more(work.alloc, count)?;
    work.set_of(&f, &sets)
}

/// Returns the tuples that are in the first set and not in the second, without their last distance.
pub(crate) fn shortened_rest(
    work: &mut EngineState,
    count: u8,
    set: Auto,
    other: Auto,
) -> Result<Option<Auto>, CrowdError>
    requires few { count ≤ 5 }
    requires set { IsFilledOn (distances_to (suc count)) set }
    requires other { IsFilledOn (distances_to (suc count)) other }
    requires room { work.old.at + 1000 ≤ 2 ^ 127 }
    ensures answers { Answers (unite.make tt work.old.at (plan.shortened_rest count (Table set) (Table other)))
        work.old.memo.budget (made_at work.new.at) result }
    ensures set { IfOk result (IsFilled count) }
    ensures room { IfOk result (λ _. work.new.at ≤ work.old.at + 1000) }
    ensures budget { work.new.memo.budget ≡ work.old.memo.budget }
{
    let sets = two_sets(work.alloc, set, other)?;
    let f = in_one_alone_with_more(work.alloc, count)?;
    work.set_of(&f, &sets)
}

/// Returns the difference of two sets.
pub(crate) fn difference(
    work: &mut EngineState,
    count: u8,
    set: Option<Auto>,
    other: Option<Auto>,
) -> Result<Option<Auto>, CrowdError>
    requires few { count ≤ 6 }
    requires set { IsFilled count set }
    requires other { IsFilled count other }
    requires room { work.old.at + 1000 ≤ 2 ^ 127 }
    ensures answers { Answers (rest_of count (as_set set, work.old.at) (as_set other))
        work.old.memo.budget (made_at work.new.at) result }
    ensures set { IfOk result (IsFilled count) }
    ensures room { IfOk result (λ _. work.new.at ≤ work.old.at + 1000) }
    ensures budget { work.new.memo.budget ≡ work.old.memo.budget }
{
    let Some(b) = other else {
        return Ok(set);
    };
    let Some(a) = set else {
        return Ok(None);
    };
    let sets = two_sets(work.alloc, a, b)?;
    let f = in_one_alone(work.alloc, count)?;
    work.set_of(&f, &sets)
}

/// Returns a copy of a set.
pub(crate) fn copied(set: &Option<Auto>) -> Result<Option<Auto>, AllocError>
    ensures { IfOk result (λ again. again ≡ set.now) }
{
    match set {
        None => Ok(None),
        Some(a) => Ok(Some(a.copy()?)),
    }
}
