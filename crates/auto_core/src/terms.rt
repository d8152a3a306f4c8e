//! The terms of an atom in the order of its tracks.
ghost use Rattle.std.specs.Prelude.{◌≡◌, ◌≤◌, ◌<◌, ℕ, length, map, neg_ℤ, All, IfOk, nat_lt};
ghost use Rattle.std.specs.List.{position_or_len};
ghost use Rattle.track_word.specs.Atom.{term_vars};
ghost use Rattle.auto_core.specs.Sums.{ordered_terms, with_term, IsSmall};

use std::alloc::{AllocError, Global};
use track_word::Var;

/// Returns the terms, ascending by their variables. Errors: an allocation failed.
pub(crate) fn ordered(alloc: Global, terms: &[(i8, Var)]) -> Result<Vec<(i8, Var)>, AllocError>
    ensures { IfOk result (λ sorted. sorted.items ≡ ordered_terms terms.now) }
{
    match terms.split_first() {
        None => Ok(Vec::new(alloc)),
        Some((term, rest)) => {
            let mut sorted = ordered(alloc, rest)?;
            let place = place_of(sorted.as_slice(), term.1);
            sorted.insert(place, *term)?;
            Ok(sorted)
        }
    }
}

/// Returns the index of the first term whose variable follows a variable.
fn place_of(terms: &[(i8, Var)], var: Var) -> usize
    ensures place { result ≡ position_or_len (λ t. nat_lt var.0 t.1.0) terms.now }
    ensures within { result ≤ length terms.now }
{
    for (index, term) in terms.iter().enumerate() {
        if var.0 < term.1.0 {
            return index;
        }
    }
    terms.len()
}

/// Returns the variables of terms, in order.
pub(crate) fn variables(alloc: Global, terms: &[(i8, Var)]) -> Result<Vec<Var>, AllocError>
    ensures { IfOk result (λ vars. vars.items ≡ map (λ t. t.1) terms.now) }
{
    let mut vars = Vec::new(alloc);
    for term in terms {
        vars.push(term.1)?;
    }
    Ok(vars)
}

/// Returns the coefficients of terms, in order.
pub(crate) fn coefficients(alloc: Global, terms: &[(i8, Var)]) -> Result<Vec<i32>, AllocError>
    ensures { IfOk result (λ weights. weights.items ≡ map (λ t. t.0) terms.now) }
{
    let mut weights = Vec::new(alloc);
    for term in terms {
        weights.push(term.0 as i32)?;
    }
    Ok(weights)
}

/// Returns the negated weights, which are those of a sign letter's bits.
pub(crate) fn negated(alloc: Global, weights: &[i32]) -> Result<Vec<i32>, AllocError>
    requires { All IsSmall weights.now }
    ensures { IfOk result (λ opposite. opposite.items ≡ map neg_ℤ weights.now) }
{
    let mut opposite = Vec::new(alloc);
    for weight in weights {
        opposite.push(-*weight)?;
    }
    Ok(opposite)
}
