//! Parsing a formula as an image.
ghost use Rattle.std.specs.Prelude.{◌≡◌, [], ◌∷◌, pos, negsuc, IfOk, IfSome, IsTrue};
ghost use Rattle.lin_formula.specs.Tree.{Not};
ghost use Rattle.lin_formula.specs.TreeOf.{tree_of};
ghost use Rattle.shift_image.specs.Image.{image_tree, change, ex_all, gone};
ghost use Rattle.shift_image.specs.Read.{image_of, with_clear, step_tree};

use crate::image::Image;
use crate::shift::ValueShift;
use lin_formula::{Formula, SetId};
use std::alloc::{AllocError, Global};
use track_word::{Rel, Var};

/// A membership, and the changes of its values.
#[derive(Drop)]
struct Step<'a> {
    set: SetId,
    vars: &'a [Var],
    shifts: Vec<ValueShift>,
}

/// Returns a formula as an image, if it has that form. Errors: an allocation failed.
pub(crate) fn read_image<'a>(alloc: Global, f: &'a Formula) -> Result<Option<Image<'a>>, AllocError>
    ensures { IfOk result (λ some. IfSome some (λ i. image_tree (image_of i) ≡ tree_of f.now)) }
{
    let mut bound = Vec::new(alloc);
    let body = open(f, &mut bound)?;
    let (inside, clear) = without_clear(alloc, body)?;
    let Some(step) = step_of(alloc, inside)? else {
        return Ok(None);
    };
    if !are_gone(bound.as_slice(), step.shifts.as_slice()) {
        return Ok(None);
    }
    Ok(Some(Image {
        set: step.set,
        vars: step.vars,
        shifts: step.shifts,
        clear,
    }))
}

/// Returns the body after the leading quantifiers of a formula. Appends their variables, outermost first.
fn open<'a>(f: &'a Formula, bound: &mut Vec<Var>) -> Result<&'a Formula, AllocError>
    ensures { IfOk result (λ body. ex_all bound.new.items (tree_of body.now) ≡ ex_all bound.old.items (tree_of f.now)) }
{
    match f {
        Formula::Ex { var, body } => {
            bound.push(*var)?;
            open(body, bound)
        }
        _ => Ok(f),
    }
}

/// Returns the formula before the conjunctions with negations at its end, and the negated formulas.
fn without_clear<'a>(
    alloc: Global,
    f: &'a Formula,
) -> Result<(&'a Formula, Vec<&'a Formula>), AllocError>
    ensures { IfOk result (λ parts. with_clear (tree_of parts.0.now) parts.1.items ≡ tree_of f.now) }
{
    match f {
        Formula::And(left, right) => match denied(right) {
            Some(g) => {
                let (inside, mut clear) = without_clear(alloc, left)?;
                clear.push(g)?;
                Ok((inside, clear))
            }
            None => Ok((f, Vec::new(alloc))),
        },
        _ => Ok((f, Vec::new(alloc))),
    }
}

/// Returns the negated formula, if the formula is a negation.
fn denied<'a>(f: &'a Formula) -> Option<&'a Formula>
    ensures { IfSome result (λ g. Not (tree_of g.now) ≡ tree_of f.now) }
{
    match f {
        Formula::Not(g) => Some(g),
        _ => None,
    }
}

/// Returns a formula as a membership with changes of its values, if it has that form.
fn step_of<'a>(alloc: Global, f: &'a Formula) -> Result<Option<Step<'a>>, AllocError>
    ensures { IfOk result (λ some. IfSome some (λ step. step_tree step ≡ tree_of f.now)) }
{
    match f {
        Formula::Among { set, vars } => Ok(Some(Step {
            set: *set,
            vars: vars.as_slice(),
            shifts: Vec::new(alloc),
        })),
        Formula::And(left, right) => {
            let Some(shift) = shift_of(right) else {
                return Ok(None);
            };
            let Some(mut step) = step_of(alloc, left)? else {
                return Ok(None);
            };
            step.shifts.push(shift)?;
            Ok(Some(step))
        }
        _ => Ok(None),
    }
}

/// Returns the two variables and the constant, if a formula says that one variable exceeds another by a constant.
fn shift_of(f: &Formula) -> Option<ValueShift>
    ensures { IfSome result (λ shift. change shift ≡ tree_of f.now) }
{
    match f {
        Formula::Lin {
            terms,
            rel: Rel::Eq,
            bound,
        } => {
            let (new, gone) = difference_of(terms.as_slice())?;
            Some(ValueShift {
                gone,
                new,
                by: *bound,
            })
        }
        _ => None,
    }
}

/// Returns the two variables of a difference.
fn difference_of(terms: &[(i8, Var)]) -> Option<(Var, Var)>
    ensures { IfSome result (λ vars. (pos 1, vars.0) ∷ (negsuc 0, vars.1) ∷ [] ≡ terms.now) }
{
    match terms {
        [(1, new), (-1, gone)] => Some((*new, *gone)),
        _ => None,
    }
}

/// Returns whether these are the variables of the old values, in order.
fn are_gone(vars: &[Var], shifts: &[ValueShift]) -> bool
    ensures { IsTrue result → gone shifts.now ≡ vars.now }
{
    if vars.len() != shifts.len() {
        return false;
    }
    for (index, shift) in shifts.iter().enumerate() {
        if shift.gone != vars[index] {
            return false;
        }
    }
    true
}
