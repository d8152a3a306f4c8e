//! Parsing of a line.
ghost use Rattle.std.specs.Prelude.{◌≡◌, ◌≤◌, ◌∷◌, ◌++◌, [], length, IfOk, IfErr, OnOk};
ghost use Rattle.lin_formula.specs.TreeOf.{tree_of};
ghost use Rattle.arith_desk.specs.Line.{texts};
ghost use Rattle.arith_desk.specs.Stops.{IsStop, Stops, StopsComparison, StopsJoined, StopsBound, StopsTerms, StopsWhole};
ghost use Rattle.arith_desk.specs.Reading.{IfReadFormula, IfReadNumber, IsFormulaLine, IsRead, IsReadBound, IsReadComparison, IsReadJoined, IsReadTerms, IsReadWhole, IsRefusal};
ghost use Rattle.arith_desk.specs.Question.{IsQuestion};

use crate::building::{bound as bound_formula, compared, denied, joined as joined_formula};
use crate::errors::{ArithError, Stop};
use crate::fields::push_fields;
use crate::slots::{Fields, count, factor, fresh_letter, front, known_letter, number, stop_at};
use crate::words::{BinaryOp, Quantifier, Word, word_of};
use limits::MOST_LINE_BYTES;
use lin_formula::Formula;
use std::alloc::{AllocError, Global};
use track_word::{Rel, Var};

/// Parses a line as a formula. Recurses one call per level, less than the number of fields. Errors: `Field` with the first field
/// that is not allowed, `Memory` if an allocation fails.
pub fn read_formula(alloc: Global, line: &[u8]) -> Result<Formula, ArithError>
    requires { length line.now ≤ MOST_LINE_BYTES }
    ensures formula { IfOk result (λ f. IsFormulaLine line.now (tree_of f)) }
    ensures question { IfOk result (λ f. IsQuestion (tree_of f)) }
    ensures refused { IfErr result (IsRefusal line.now) }
{
    let mut fields = Vec::new(alloc);
    push_fields(&mut fields, line)?;
    match whole(alloc, fields.as_slice()) {
        Ok(f) => Ok(f),
        Err(Stop::Left(left)) => Err(ArithError::Field((fields.len() - left + 1) as u32)),
        Err(Stop::Memory) => Err(ArithError::Memory),
    }
}

/// Parses all of the fields as a formula.
fn whole(alloc: Global, fields: Fields) -> Result<Formula, Stop>
    ensures ok { IfOk result (λ f. IsReadWhole (texts fields.now) (tree_of f)) }
    ensures err { IfErr result (IsStop (StopsWhole (texts fields.now))) }
{
    let (f, rest) = formula(alloc, fields, &[])?;
    if rest.is_empty() {
        Ok(f)
    } else {
        Err(stop_at(rest))
    }
}

/// Parses the formula at the start of the fields, and returns it with the fields after it. The scope has the letters of the
/// enclosing quantifiers.
#[cycle(formula)]
fn formula<'a>(
    alloc: Global,
    fields: Fields<'a>,
    scope: &[Var],
) -> Result<(Formula, Fields<'a>), Stop>
    ensures ok { IfReadFormula result (IsRead scope.now (texts fields.now)) }
    ensures err { IfErr result (IsStop (Stops scope.now (texts fields.now))) }
{
    let Some((field, rest)) = front(fields) else {
        return Err(stop_at(fields));
    };
    match word_of(field) {
        None => Err(stop_at(fields)),
        Some(Word::Not) => {
            let (f, rest) = formula(alloc, rest, scope)?;
            Ok((denied(alloc, f)?, rest))
        }
        Some(Word::Join(connective)) => joined(alloc, connective, rest, scope),
        Some(Word::Bind(quantifier)) => bound(alloc, quantifier, rest, scope),
        Some(Word::Compare(rel)) => comparison(alloc, rel, rest, scope),
    }
}

/// Parses two formulas, combines them, and returns the result with the fields after them.
#[cycle(formula)]
fn joined<'a>(
    alloc: Global,
    connective: BinaryOp,
    fields: Fields<'a>,
    scope: &[Var],
) -> Result<(Formula, Fields<'a>), Stop>
    ensures ok { IfReadFormula result (IsReadJoined connective scope.now (texts fields.now)) }
    ensures err { IfErr result (IsStop (StopsJoined scope.now (texts fields.now))) }
{
    let (f, rest) = formula(alloc, fields, scope)?;
    let (g, rest) = formula(alloc, rest, scope)?;
    Ok((joined_formula(alloc, connective, f, g)?, rest))
}

/// Parses a letter and a body, and returns the quantified formula with the fields after it.
#[cycle(formula)]
fn bound<'a>(
    alloc: Global,
    quantifier: Quantifier,
    fields: Fields<'a>,
    scope: &[Var],
) -> Result<(Formula, Fields<'a>), Stop>
    ensures ok { IfReadFormula result (IsReadBound quantifier scope.now (texts fields.now)) }
    ensures err { IfErr result (IsStop (StopsBound scope.now (texts fields.now))) }
{
    let (var, rest) = fresh_letter(fields, scope)?;
    let inner = with_letter(alloc, var, scope)?;
    let (body, rest) = formula(alloc, rest, inner.as_slice())?;
    Ok((bound_formula(alloc, quantifier, var, body)?, rest))
}

/// Returns the scope with one more letter.
fn with_letter(alloc: Global, var: Var, scope: &[Var]) -> Result<Vec<Var>, AllocError>
    ensures { IfOk result (λ inner. inner.items ≡ var ∷ scope.now) }
{
    let mut inner = vec![in alloc; var]?;
    inner.extend_from_slice(scope)?;
    Ok(inner)
}

/// Parses a comparison: the number of terms, the terms and the bound. Returns it with the fields after it.
fn comparison<'a>(
    alloc: Global,
    rel: Rel,
    fields: Fields<'a>,
    scope: &[Var],
) -> Result<(Formula, Fields<'a>), Stop>
    ensures ok { IfReadFormula result (IsReadComparison rel scope.now (texts fields.now)) }
    ensures err { IfErr result (IsStop (StopsComparison scope.now (texts fields.now))) }
{
    let (due, rest) = count(fields)?;
    let mut terms = Vec::new(alloc);
    let (bound, rest) = terms_and_bound(&mut terms, due, rest, scope)?;
    Ok((compared(alloc, terms.as_slice(), rel, bound)?, rest))
}

/// Parses and appends this many terms. Returns the bound that follows them, and the fields after it.
fn terms_and_bound<'a>(
    terms: &mut Vec<(i8, Var)>,
    due: u8,
    fields: Fields<'a>,
    scope: &[Var],
) -> Result<(i32, Fields<'a>), Stop>
    ensures ok { IfReadNumber result
        (IsReadTerms scope.now terms.old.items due (texts fields.now) terms.new.items) }
    ensures err { IfErr result (IsStop (StopsTerms scope.now terms.old.items due (texts fields.now))) }
{
    if due == 0 {
        return number(fields, -1000, 1000);
    }
    let (factor, rest) = factor(fields)?;
    let (var, rest) = known_letter(rest, scope, terms.as_slice())?;
    push_term(terms, factor, var)?;
    terms_and_bound(terms, due - 1, rest, scope)
}

/// Appends a term.
fn push_term(terms: &mut Vec<(i8, Var)>, factor: i8, var: Var) -> Result<(), AllocError>
    ensures { OnOk result (terms.new.items ≡ terms.old.items ++ (factor, var) ∷ []) }
{
    terms.push((factor, var))?;
    Ok(())
}
