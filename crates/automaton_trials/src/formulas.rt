//! Rows that compile formulas.

ghost use Rattle.std.specs.Prelude.{IfOk};
ghost use Rattle.auto_core.specs.Reduced.{IsReduced};
ghost use Rattle.lin_formula.specs.TreeOf.{tree_of};
ghost use Rattle.arith_desk.specs.Question.{IsQuestion};

use arith_desk::{ArithError, read_formula};
use auto_core::Auto;
use auto_reduce::is_empty;
use formula_auto::{CompileError, Memo, SetTable};
use limits::MOST_LINE_BYTES;
use lin_formula::Formula;
use std::alloc::Global;
use trial_rows::{Row, RowError};

/// The closed formula of a text.
fn formula(alloc: Global, text: &str) -> Result<Formula, RowError>
    ensures { IfOk result (λ f. IsQuestion (tree_of f)) }
{
    if text.len() > MOST_LINE_BYTES {
        return Err(RowError::Word);
    }
    match read_formula(alloc, text.as_bytes()) {
        Ok(f) => Ok(f),
        Err(ArithError::Field(_)) => Err(RowError::Word),
        Err(ArithError::Memory) => Err(RowError::Memory),
    }
}

/// Writes whether a formula is true, or which step of it exceeds the budget.
fn write_compiled(row: &mut Row, answer: Result<Auto, CompileError>) -> Result<(), RowError>
    requires { IfOk answer IsReduced }
{
    match answer {
        Ok(a) => row.write_truth(!is_empty(&a)),
        Err(CompileError::Over { step }) => row.write_labelled("over ", step),
        Err(CompileError::Memory) => return Err(RowError::Memory),
    }
    Ok(())
}

/// Compiles the closed formula of a text with a cache, and writes the result.
fn write_formula(memo: &mut Memo, text: &str, row: &mut Row) -> Result<(), RowError> {
    let f = formula(row.alloc, text)?;
    let sets = SetTable::new(row.alloc);
    write_compiled(row, memo.compile(row.alloc, &f, &sets))
}

/// Runs `memo BUDGET FORMULA/FORMULA ..`: whether the formulas are true, compiled with one cache, and what the cache
/// contains afterwards.
pub fn write_memo(row: &mut Row) -> Result<(), RowError> {
    let mut memo = Memo::new(row.alloc, row.budget()?);
    for (place, text) in row.rest().split('/').enumerate() {
        row.separate(place, '/');
        write_formula(&mut memo, text, row)?;
    }
    row.write_labelled(" kept ", memo.kept());
    row.write_labelled(" found ", memo.found());
    Ok(())
}
