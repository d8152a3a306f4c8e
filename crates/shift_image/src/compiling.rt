//! Images compiled by shifting tracks of the set if that is known to be within the budget, and as other formulas otherwise.
ghost use Rattle.std.specs.Prelude.{◌≡◌, ◌≤◌, ◌<◌, ◌^◌, length, IfOk, IfErr, IfSome, OnOk};
ghost use Rattle.auto_core.specs.Integers.{DecidesIntegers};
ghost use Rattle.auto_core.specs.Reduced.{AllReached};
ghost use Rattle.lin_formula.specs.Tree.{HasStep, steps};
ghost use Rattle.lin_formula.specs.TreeOf.{tree_of};
ghost use Rattle.lin_formula.specs.SetOf.{tables, members};
ghost use Rattle.formula_auto.specs.Step.{StaysWithin};
ghost use Rattle.formula_auto.specs.Decides.{Decides};
ghost use Rattle.formula_auto.specs.Compiled.{IsAccessible, IsCompilable, IsCompileError};
ghost use Rattle.formula_auto.specs.MemoState.{KeepsEntries};
ghost use Rattle.shift_image.specs.Image.{image_tree};
ghost use Rattle.shift_image.specs.Laws.{IsCompiledOver, IsMovedSet};
ghost use Rattle.shift_image.specs.Read.{image_of, IsMovable};

use crate::image::Image;
use crate::laws::{
    image_says_what_its_part_says, moved_sets_are_decided, steps_of_an_image_are_within,
};
use crate::leaving::{Scope, minus_all};
use crate::movable::{is_movable, moved_vars};
use crate::reading::read_image;
use crate::share::share;
use crate::shifting::moved;
use auto_compact::renamed;
use auto_core::Auto;
use auto_walk::Grown;
use formula_auto::{CompileError, MeetTable, Memo, SetTable};
use limits::Budget;
use lin_formula::Formula;
use std::alloc::{AllocError, Global};

/// Compiles as `Memo::compile_unreduced` does. The image of a set in which some values change by one or two is the set with shifted
/// tracks, if that shows that no step of the formula exceeds the budget. Plain subformulas of the image are cached.
pub fn compile_image_on(
    alloc: Global,
    memo: &mut Memo,
    f: &Formula,
    meets: &mut MeetTable,
) -> Result<Auto, CompileError>
    requires compilable { IsCompilable (tree_of f.now) meets.old.sets }
    requires few_steps { length (steps (tree_of f.now)) < 2 ^ 31 }
    requires same_budget { meets.old.budget ≡ memo.old.budget }
    ensures reached { IfOk result AllReached }
    ensures few { IfOk result (λ a. HasStep (tree_of f.now) → length a.accept ≤ memo.old.budget) }
    ensures decides { IfOk result (λ a. Decides a (tree_of f.now) (members (tables meets.old.sets))) }
    ensures integers { IfOk result DecidesIntegers }
    ensures within { OnOk result (StaysWithin (tree_of f.now) (members (tables meets.old.sets)) memo.old.budget) }
    ensures over { IfErr result (IsCompileError (tree_of f.now) (tables meets.old.sets) 0 memo.old.budget) }
    ensures budget { memo.new.budget ≡ memo.old.budget }
    ensures kept { KeepsEntries memo.old memo.new }
    ensures same_sets { meets.new.sets ≡ meets.old.sets }
    ensures meets_budget { meets.new.budget ≡ meets.old.budget }
{
    match by_moving(alloc, memo, f, meets.sets())? {
        Some(auto) => Ok(auto),
        None => memo.compile_unreduced(alloc, f, meets),
    }
}

/// Returns the automaton of an image by shifting tracks, if the formula is an image and that is known to be within the budget.
fn by_moving(
    alloc: Global,
    memo: &mut Memo,
    f: &Formula,
    sets: &SetTable,
) -> Result<Option<Auto>, AllocError>
    requires compilable { IsCompilable (tree_of f.now) sets.now }
    requires few_steps { length (steps (tree_of f.now)) < 2 ^ 31 }
    ensures made { IfOk result
        (λ some. IfSome some (IsCompiledOver (tree_of f.now) sets.now memo.old.budget)) }
    ensures budget { memo.new.budget ≡ memo.old.budget }
    ensures kept { KeepsEntries memo.old memo.new }
{
    let Some(image) = movable_image(alloc, f)? else {
        return Ok(None);
    };
    match image_within(alloc, memo, &image, sets) {
        Ok(auto) => Ok(Some(auto)),
        Err(Grown::Over) => Ok(None),
        Err(Grown::Memory) => Err(AllocError),
    }
}

/// Returns a formula as an image for which tracks can be shifted, if it has that form.
fn movable_image<'a>(alloc: Global, f: &'a Formula) -> Result<Option<Image<'a>>, AllocError>
    ensures same { IfOk result (λ some. IfSome some (λ i. image_tree (image_of i) ≡ tree_of f.now)) }
    ensures movable { IfOk result (λ some. IfSome some (λ i. IsMovable (image_of i))) }
{
    let Some(image) = read_image(alloc, f)? else {
        return Ok(None);
    };
    if !is_movable(alloc, &image)? {
        return Ok(None);
    }
    Ok(Some(image))
}

/// Returns the automaton of an image by shifting tracks. `Over` does not mean that a step of the formula exceeds the budget.
fn image_within(
    alloc: Global,
    memo: &mut Memo,
    image: &Image,
    sets: &SetTable,
) -> Result<Auto, Grown>
    requires movable { IsMovable (image_of image.now) }
    requires compilable { IsCompilable (image_tree (image_of image.now)) sets.now }
    requires few_steps { length (steps (image_tree (image_of image.now))) < 2 ^ 31 }
    ensures made { IfOk result
        (IsCompiledOver (image_tree (image_of image.now)) sets.now memo.old.budget) }
    ensures budget { memo.new.budget ≡ memo.old.budget }
    ensures kept { KeepsEntries memo.old memo.new }
{
    image_says_what_its_part_says();
    steps_of_an_image_are_within();
    let Some(set) = sets.get(image.set) else {
        unreachable!();
    };
    let Some(each) = share(memo.budget(), image.shifts.as_slice(), set.states()) else {
        return Err(Grown::Over);
    };
    let moved = moved_set(alloc, set, image, each)?;
    let part = minus_all(
        alloc,
        memo,
        moved,
        image.clear.as_slice(),
        &Scope { sets, each },
    )?;
    let _ = part.states(); // for its invariant
    Ok(part)
}

/// Returns the set with the image's new values in place of the old ones. `Over` does not mean that a step exceeds the budget.
fn moved_set(alloc: Global, set: &Auto, image: &Image, each: Budget) -> Result<Auto, Grown>
    requires movable { IsMovable (image_of image.now) }
    requires arity { length image.now.vars.now ≡ length set.now.tracks }
    requires integers { DecidesIntegers set.now }
    ensures decides { IfOk result (IsMovedSet (image_of image.now) set.now) }
    ensures accessible { IfOk result (IsAccessible each) }
{
    moved_sets_are_decided();
    let _ = set.tracks(); // for its invariant
    let shifts = image.shifts.as_slice();
    let vars = moved_vars(alloc, shifts, image.vars)?;
    let renamed = renamed(alloc, set, vars.as_slice())?;
    moved(alloc, renamed, shifts, each)
}
