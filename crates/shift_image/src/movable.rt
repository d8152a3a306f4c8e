//! Whether tracks of the set can be shifted in place of an image's steps.
ghost use Rattle.std.specs.Prelude.{◌≡◌, All, AllPairs, map, IfOk, IsTrue};
ghost use Rattle.lin_formula.specs.TreeOf.{tree_of};
ghost use Rattle.lin_formula.specs.Free.{IsOneOf};
ghost use Rattle.shift_image.specs.Image as image;
ghost use Rattle.shift_image.specs.Image.{AreOtherVars, IsAbout};
ghost use Rattle.shift_image.specs.Read.{image_of, trees, IsNear, Leaves, IsMovable};

use crate::image::Image;
use crate::shift::ValueShift;
use lin_formula::{Formula, free_vars};
use std::alloc::{AllocError, Global};
use track_word::Var;

/// Returns whether some values change, each by one or two, and tracks of the set can be shifted for that.
pub(crate) fn is_movable(alloc: Global, image: &Image) -> Result<bool, AllocError>
    ensures { IfOk result (λ is. IsTrue is → IsMovable (image_of image.now)) }
{
    let shifts = image.shifts.as_slice();
    if shifts.is_empty() || !all_leave(shifts, image.vars) || !have_distinct_vars(shifts) {
        return Ok(false);
    }
    let moved = moved_vars(alloc, shifts, image.vars)?;
    are_about(alloc, image.clear.as_slice(), moved.as_slice())
}

/// Returns the variables of a shifted tuple.
pub(crate) fn moved_vars(
    alloc: Global,
    shifts: &[ValueShift],
    vars: &[Var],
) -> Result<Vec<Var>, AllocError>
    ensures { IfOk result (λ moved. moved.items ≡ map (image.moved_var shifts.now) vars.now) }
{
    let mut moved = Vec::new(alloc);
    for var in vars {
        moved.push(moved_var(shifts, *var))?;
    }
    Ok(moved)
}

/// Returns the variable that has a value after the change.
fn moved_var(shifts: &[ValueShift], var: Var) -> Var
    ensures { result ≡ image.moved_var shifts.now var }
{
    for shift in shifts {
        if var.0 == shift.gone.0 {
            return shift.new;
        }
    }
    var
}

fn all_leave(shifts: &[ValueShift], vars: &[Var]) -> bool
    ensures { IsTrue result → All (Leaves vars.now) shifts.now }
{
    for shift in shifts {
        if !leaves(*shift, vars) {
            return false;
        }
    }
    true
}

/// Returns whether one of the variables changes, by one or two, to a variable that is not among them.
fn leaves(shift: ValueShift, vars: &[Var]) -> bool
    ensures { IsTrue result → Leaves vars.now shift }
{
    is_one_of(shift.gone, vars) && !is_one_of(shift.new, vars) && is_near(shift.by)
}

fn is_one_of(var: Var, vars: &[Var]) -> bool
    ensures one { IsTrue result → IsOneOf var vars.now }
    ensures none { IsOneOf var vars.now → IsTrue result }
{
    vars.contains(&var)
}

fn is_near(by: i32) -> bool
    ensures { IsTrue result → IsNear by }
{
    matches!(by, -2 | -1 | 1 | 2)
}

/// Returns whether the changes are of distinct variables to distinct variables.
fn have_distinct_vars(shifts: &[ValueShift]) -> bool
    ensures { IsTrue result → AllPairs AreOtherVars shifts.now }
{
    match shifts.split_first() {
        None => true,
        Some((shift, rest)) => is_apart(*shift, rest) && have_distinct_vars(rest),
    }
}

fn is_apart(shift: ValueShift, others: &[ValueShift]) -> bool
    ensures { IsTrue result → All (AreOtherVars shift) others.now }
{
    for other in others {
        if shift.gone == other.gone || shift.new == other.new {
            return false;
        }
    }
    true
}

/// Returns whether the formulas have no other free variables.
fn are_about(alloc: Global, formulas: &[&Formula], vars: &[Var]) -> Result<bool, AllocError>
    ensures { IfOk result (λ are. IsTrue are → All (IsAbout vars.now) (trees formulas.now)) }
{
    for f in formulas {
        if !is_about(alloc, f, vars)? {
            return Ok(false);
        }
    }
    Ok(true)
}

fn is_about(alloc: Global, f: &Formula, vars: &[Var]) -> Result<bool, AllocError>
    ensures { IfOk result (λ is. IsTrue is → IsAbout vars.now (tree_of f.now)) }
{
    let free = free_vars(alloc, f)?;
    Ok(are_among(free.as_slice(), vars))
}

fn are_among(some: &[Var], vars: &[Var]) -> bool
    ensures { IsTrue result → All (λ x. IsOneOf x vars.now) some.now }
{
    for var in some {
        if !is_one_of(*var, vars) {
            return false;
        }
    }
    true
}
