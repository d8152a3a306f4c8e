//! The terms of a comparison.

ghost use Rattle.std.specs.Prelude.{◌≡◌, ◌++◌, ◌∷◌, [], ◌≤◌, IfOk, OnOk, All, ℤ, length, pos, negsuc};
ghost use Rattle.track_word.specs.Atom.{IsAtom, IsBound};
ghost use Rattle.rule_formula.specs.Seats.{var};
ghost use Rattle.line_formula.specs.Atoms.{held, terms as terms_of, with_term};
ghost use Rattle.line_formula.specs.Small.{IsSmallGap, IsSmallLeg};

use crate::gap::{Gap, weight};
use crate::leg::{Leg, MOST_LEGS};
use std::alloc::{AllocError, Global};
use track_word::Var;

/// The variable of a sum's constant.
pub(crate) const HELD: Var = Var(16);

/// Appends a term, unless its coefficient is 0.
fn push_term(weight: i8, var: Var, terms: &mut Vec<(i8, Var)>) -> Result<(), AllocError>
    ensures { OnOk result (terms.new.items ≡ terms.old.items ++ with_term weight var []) }
{
    if weight == 0 {
        return Ok(());
    }
    terms.push((weight, var))?;
    Ok(())
}

/// Appends the distances of the legs that change the gap, with their coefficients.
#[tactic(auto, using(crate::proofs::GapLemmas::term_lists))]
fn push_terms(gap: Gap, legs: &[Leg], terms: &mut Vec<(i8, Var)>) -> Result<(), AllocError>
    requires gap { IsSmallGap gap }
    requires legs { All IsSmallLeg legs.now }
    requires few { length legs.now ≤ MOST_LEGS }
    ensures { OnOk result (terms.new.items ≡ terms.old.items ++ terms_of gap legs.now) }
{
    match legs {
        [] => Ok(()),
        [leg, before @ ..] => {
            let weight = weight(gap, *leg);
            push_term(weight, Var(before.len() as u8), terms)?;
            push_terms(gap, before, terms)
        }
    }
}

/// Returns the held variable and the distances of the legs that change the gap.
pub(crate) fn terms(alloc: Global, gap: Gap, legs: &[Leg]) -> Result<Vec<(i8, Var)>, AllocError>
    requires gap { IsSmallGap gap }
    requires legs { All IsSmallLeg legs.now }
    requires few { length legs.now ≤ MOST_LEGS }
    ensures terms { IfOk result (λ terms. terms.items ≡ (pos 1, held) ∷ terms_of gap legs.now) }
    ensures atom { IfOk result (λ terms. (bound : ℤ) → IsBound bound → IsAtom terms.items bound) }
{
    let mut all = Vec::new(alloc);
    all.push((1, HELD))?;
    push_terms(gap, legs, &mut all)?;
    Ok(all)
}

/// Returns the same minus the distance of the next leg.
pub(crate) fn terms_less_next(
    alloc: Global,
    gap: Gap,
    legs: &[Leg],
) -> Result<Vec<(i8, Var)>, AllocError>
    requires gap { IsSmallGap gap }
    requires legs { All IsSmallLeg legs.now }
    requires few { length legs.now ≤ MOST_LEGS }
    ensures terms { IfOk result
        (λ terms. terms.items ≡ (pos 1, held) ∷ (negsuc 0, var (length legs.now)) ∷ terms_of gap legs.now) }
    ensures atom { IfOk result (λ terms. IsAtom terms.items (pos 0)) }
{
    let mut all = Vec::new(alloc);
    all.push((1, HELD))?;
    all.push((-1, Var(legs.len() as u8)))?;
    push_terms(gap, legs, &mut all)?;
    Ok(all)
}
