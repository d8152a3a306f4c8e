//! Fields that must be a letter or a number.
ghost use Rattle.std.specs.Prelude.{◌≡◌, ◌≢◌, ◌≤◌, ◌<◌, [], ◌∷◌, ◌≤ℤ◌, length, pos, IfOk, IfErr, IfSome, IfNone, IsTrue, ◌↔◌};
ghost use Rattle.std.specs.Bool.{OnTrue, OnFalse};
ghost use Rattle.std.specs.List.{All};
ghost use Rattle.std.specs.Fmt.{signed_decimal};
ghost use Rattle.lin_formula.specs.Free.{IsOneOf};
ghost use Rattle.arith_desk.specs.Line.{texts};
ghost use Rattle.arith_desk.specs.Words.{IsFactor, letter};
ghost use Rattle.arith_desk.specs.Stops.{Fails, IsFactorField, IsFreshLetter, IsKnownLetter, IsNumberBetween, IsStop};

use crate::errors::Stop;
use crate::words::{letter_of, number_between};
use track_word::Var;

/// Fields of a line.
pub type Fields<'a> = &'a [&'a [u8]];

/// Returns the first field and the others.
pub(crate) fn front<'a>(fields: Fields<'a>) -> Option<(&'a [u8], Fields<'a>)>
    ensures some { IfSome result (λ front. texts fields.now ≡ front.0.now ∷ texts front.1.now) }
    ensures none { IfNone result (texts fields.now ≡ []) }
{
    match fields.split_first() {
        Some((field, rest)) => Some((*field, rest)),
        None => None,
    }
}

/// Returns the error that the first field is not allowed or missing.
pub(crate) fn stop_at(fields: Fields) -> Stop
    ensures { result ≡ Stop.Left (length (texts fields.now)) }
{
    Stop::Left(fields.len())
}

/// Parses a number between two others. Returns it with the fields after it.
pub(crate) fn number<'a>(fields: Fields<'a>, low: i32, high: i32) -> Result<(i32, Fields<'a>), Stop>
    ensures low { IfOk result (λ taken. low ≤ℤ taken.0) }
    ensures high { IfOk result (λ taken. taken.0 ≤ℤ high) }
    ensures ok { IfOk result (λ taken. texts fields.now ≡ signed_decimal taken.0 ∷ texts taken.1.now) }
    ensures err { IfErr result (IsStop (Fails (IsNumberBetween low high) (texts fields.now))) }
{
    let Some((field, rest)) = front(fields) else {
        return Err(stop_at(fields));
    };
    match number_between(field, low, high) {
        Some(number) => Ok((number, rest)),
        None => Err(stop_at(fields)),
    }
}

/// Parses the number of terms. Returns it with the fields after it.
pub(crate) fn count<'a>(fields: Fields<'a>) -> Result<(u8, Fields<'a>), Stop>
    ensures low { IfOk result (λ taken. 1 ≤ taken.0) }
    ensures high { IfOk result (λ taken. taken.0 ≤ 8) }
    ensures ok { IfOk result (λ taken. texts fields.now ≡ signed_decimal (pos taken.0) ∷ texts taken.1.now) }
    ensures err { IfErr result (IsStop (Fails (IsNumberBetween (pos 1) (pos 8)) (texts fields.now))) }
{
    let (number, rest) = number(fields, 1, 8)?;
    Ok((number as u8, rest))
}

/// Parses a coefficient. Returns it with the fields after it.
pub(crate) fn factor<'a>(fields: Fields<'a>) -> Result<(i8, Fields<'a>), Stop>
    ensures factor { IfOk result (λ taken. IsFactor taken.0) }
    ensures ok { IfOk result (λ taken. texts fields.now ≡ signed_decimal taken.0 ∷ texts taken.1.now) }
    ensures err { IfErr result (IsStop (Fails IsFactorField (texts fields.now))) }
{
    let (number, rest) = number(fields, -64, 64)?;
    if number == 0 {
        return Err(stop_at(fields));
    }
    Ok((number as i8, rest))
}

/// Parses a letter that is not in the scope. Returns its variable with the fields after it.
pub(crate) fn fresh_letter<'a>(fields: Fields<'a>, scope: &[Var]) -> Result<(Var, Fields<'a>), Stop>
    ensures low { IfOk result (λ taken. taken.0.0 < 16) }
    ensures fresh { IfOk result (λ taken. ¬ IsOneOf taken.0 scope.now) }
    ensures ok { IfOk result (λ taken. texts fields.now ≡ letter taken.0 ∷ texts taken.1.now) }
    ensures err { IfErr result (IsStop (Fails (IsFreshLetter scope.now) (texts fields.now))) }
{
    let Some((field, rest)) = front(fields) else {
        return Err(stop_at(fields));
    };
    let Some(var) = letter_of(field) else {
        return Err(stop_at(fields));
    };
    if is_one_of(var, scope) {
        return Err(stop_at(fields));
    }
    Ok((var, rest))
}

/// Parses a letter that is in the scope and not in the terms. Returns its variable with the fields after it.
pub(crate) fn known_letter<'a>(
    fields: Fields<'a>,
    scope: &[Var],
    terms: &[(i8, Var)],
) -> Result<(Var, Fields<'a>), Stop>
    ensures known { IfOk result (λ taken. IsOneOf taken.0 scope.now) }
    ensures unused { IfOk result (λ taken. All (λ t. t.1 ≢ taken.0) terms.now) }
    ensures ok { IfOk result (λ taken. texts fields.now ≡ letter taken.0 ∷ texts taken.1.now) }
    ensures err { IfErr result (IsStop (Fails (IsKnownLetter scope.now terms.now) (texts fields.now))) }
{
    let Some((field, rest)) = front(fields) else {
        return Err(stop_at(fields));
    };
    let Some(var) = letter_of(field) else {
        return Err(stop_at(fields));
    };
    if !is_one_of(var, scope) {
        return Err(stop_at(fields));
    }
    if stands_in(var, terms) {
        return Err(stop_at(fields));
    }
    Ok((var, rest))
}

/// Returns whether the variable is in a list.
pub(crate) fn is_one_of(var: Var, vars: &[Var]) -> bool
    ensures { IsTrue result ↔ IsOneOf var vars.now }
{
    match vars {
        [] => false,
        [first, rest @ ..] => var == *first || is_one_of(var, rest),
    }
}

/// Returns whether the variable occurs in one of the terms.
fn stands_in(var: Var, terms: &[(i8, Var)]) -> bool
    ensures yes { OnTrue result (All (λ t. t.1 ≢ var) terms.now → ⊥) }
    ensures no { OnFalse result (All (λ t. t.1 ≢ var) terms.now) }
{
    for t in terms {
        if t.1 == var {
            return true;
        }
    }
    false
}
