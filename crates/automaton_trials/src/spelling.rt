//! The spelling of an automaton: fields in prefix form, as `docs/TESTING.md` has them.

use crate::letters::{var, vars};
use crate::reduced_auto::{ReducedAuto, check_atom, grown, joined, made, others};
use crate::tables::{Tables, tabled};
use auto_bool::Connective;
use auto_core::Auto;
use auto_project::forget;
use auto_walk::residue;
use std::alloc::Global;
use track_word::{Rel, Var};
use trial_rows::{Named, Row, RowError};

/// The greatest depth of nested automata.
pub const MOST_DEPTH: u8 = 60;

/// Parses the terms of a comparison, after their number: coefficients and their variables.
fn terms(row: &mut Row) -> Result<Vec<(i8, Var)>, RowError> {
    let count = row.number::<u8>()?;
    let mut terms = Vec::new(row.alloc);
    for _ in 0..count {
        terms.push((row.number::<i8>()?, var(row)?))?;
    }
    Ok(terms)
}

/// `le K A V .. B` and `eq K A V .. B`.
fn linear(rel: Rel, row: &mut Row) -> Result<ReducedAuto, RowError> {
    let terms = terms(row)?;
    let bound = row.number::<i32>()?;
    let terms = terms.as_slice();
    check_atom(row.alloc, terms, rel, bound)?;
    made(row.alloc, Auto::lin(row.alloc, terms, rel, bound))
}

/// `is V N`.
fn value(row: &mut Row) -> Result<ReducedAuto, RowError> {
    let var = var(row)?;
    let value = row.number::<i64>()?;
    made(row.alloc, Auto::value(row.alloc, var, value))
}

/// `residue BUDGET V M R`.
fn remainder(row: &mut Row) -> Result<ReducedAuto, RowError> {
    let budget = row.budget()?;
    let var = var(row)?;
    let (modulus, wanted) = row.two_numbers::<u32, u32>()?;
    if modulus == 0 {
        return Err(RowError::Condition);
    }
    grown(row.alloc, residue(row.alloc, var, modulus, wanted, budget))
}

/// Flags, each `1` or `0`, with nothing between them.
fn flags(alloc: Global, field: &str) -> Result<Vec<bool>, RowError> {
    let mut flags = Vec::new(alloc);
    for byte in field.as_bytes() {
        let flag = match *byte {
            b'0' => false,
            b'1' => true,
            _ => return Err(RowError::Word),
        };
        flags.push(flag)?;
    }
    Ok(flags)
}

/// `rows VARS FIRST NEXT FLAGS`.
fn rows(row: &mut Row) -> Result<ReducedAuto, RowError> {
    let tables = Tables {
        tracks: vars(row)?,
        first: row.numbers()?,
        next: row.numbers()?,
        accept: flags(row.alloc, row.word()?)?,
    };
    tabled(row.alloc, tables)
}

/// An automaton that is made of no other one, or a copy of a named one, from the second word on.
fn plain_automaton(
    named: &Named<ReducedAuto>,
    word: &str,
    row: &mut Row,
) -> Result<ReducedAuto, RowError> {
    match word {
        "le" => linear(Rel::Le, row),
        "eq" => linear(Rel::Eq, row),
        "is" => value(row),
        "residue" => remainder(row),
        "rows" => rows(row),
        "the" => named.next(row).and_then(ReducedAuto::copy),
        _ => Err(RowError::Word),
    }
}

/// Parses an automaton, whose depth is at most the given one, and whose text may name earlier automata.
#[cycle(automaton)]
pub fn automaton(
    named: &Named<ReducedAuto>,
    depth: u8,
    row: &mut Row,
) -> Result<ReducedAuto, RowError> {
    if depth == 0 {
        return Err(RowError::Deep);
    }
    match row.word()? {
        "not" => others(row.alloc, &automaton(named, depth - 1, row)?),
        "meet" => both(Connective::And, named, depth - 1, row),
        "join" => both(Connective::Or, named, depth - 1, row),
        "without" => both(Connective::AndNot, named, depth - 1, row),
        "forget" => projected(named, depth - 1, row),
        word => plain_automaton(named, word, row),
    }
}

/// `forget BUDGET V A`, from the second word on: what some integer of a variable makes true.
#[cycle(automaton)]
fn projected(
    named: &Named<ReducedAuto>,
    depth: u8,
    row: &mut Row,
) -> Result<ReducedAuto, RowError> {
    let budget = row.budget()?;
    let var = var(row)?;
    let set = automaton(named, depth, row)?;
    grown(row.alloc, forget(row.alloc, set.auto(), var, budget))
}

/// `meet BUDGET A A`, `join BUDGET A A` and `without BUDGET A A`, from the second word on.
#[cycle(automaton)]
fn both(
    connective: Connective,
    named: &Named<ReducedAuto>,
    depth: u8,
    row: &mut Row,
) -> Result<ReducedAuto, RowError> {
    let budget = row.budget()?;
    let left = automaton(named, depth, row)?;
    let right = automaton(named, depth, row)?;
    joined(row.alloc, connective, &left, &right, budget)
}
