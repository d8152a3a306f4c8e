//! A script: rows, and lines that are not rows.

use crate::answer::Answer;
use crate::errors::RowError;
use crate::fields::Fields;
use crate::row::Row;
use std::alloc::Global;
use std::io;
use std::io::Write;
use std::process::ExitCode;

/// Makes the calls of a program's rows, and keeps what they have named.
pub trait RowInterpreter {
    /// Writes the result of the call of a row of this kind; it is empty if the row names something.
    fn answer(&mut self, kind: &str, row: &mut Row) -> Result<(), RowError>;
}

/// Writes the result of a row's call, all of whose fields must be read.
fn answer_row<R: RowInterpreter>(rows: &mut R, row: &mut Row) -> Result<(), RowError> {
    let kind = row.word()?;
    rows.answer(kind, row)?;
    row.fields.end()
}

/// Makes the calls of the remaining steps, which are separated by `/` and spelled like rows, and writes their results,
/// with a mark between any two.
pub fn answer_steps<R: RowInterpreter>(
    rows: &mut R,
    row: &mut Row,
    mark: char,
) -> Result<(), RowError> {
    for (place, step) in row.rest().split('/').enumerate() {
        row.separate(place, mark);
        row.fields = Fields::new(step);
        answer_row(rows, row)?;
    }
    Ok(())
}

/// Whether a line has a row.
fn is_row(line: &str) -> bool {
    !line.is_empty() && !line.starts_with('#')
}

/// Writes the output of a row on a line of its own, unless it is empty.
fn write_answer(row: &Row, out: &mut Answer) -> Result<(), RowError> {
    let text = row.answer.text()?;
    if !text.is_empty() {
        out.write(text);
        out.write("\n");
    }
    Ok(())
}

/// Writes the output of a row, or `over` if a step of it exceeds its budget.
fn write_row<R: RowInterpreter>(
    alloc: Global,
    rows: &mut R,
    line: &str,
    out: &mut Answer,
) -> Result<(), RowError> {
    let mut row = Row::new(alloc, line);
    match answer_row(rows, &mut row) {
        Err(RowError::Over) => row.write("over"),
        answered => answered?,
    }
    write_answer(&row, out)
}

/// Writes the number of the line of a row that can't be read, and the reason.
fn write_error(number: u64, error: RowError, out: &mut Answer) {
    out.write("line ");
    out.write_number(number);
    out.write(" ");
    out.write(error.word());
    out.write("\n");
}

/// Writes the outputs of all rows. Returns whether each row was read.
fn write_rows<R: RowInterpreter>(
    alloc: Global,
    rows: &mut R,
    script: &str,
    out: &mut Answer,
) -> bool {
    let mut all_read = true;
    let mut number = 0u64;
    for line in script.lines() {
        number = number.saturating_add(1);
        if !is_row(line) {
            continue;
        }
        if let Err(error) = write_row(alloc, rows, line, out) {
            write_error(number, error, out);
            all_read = false;
        }
    }
    all_read
}

/// Writes the whole output to the standard output, and returns whether that succeeded.
pub fn is_told(rt: &HostRuntime, out: &Answer) -> bool {
    match out.text() {
        Ok(text) => io::writer(rt).write_all(text.as_bytes()).is_ok(),
        Err(_) => false,
    }
}

/// Runs the script on the standard input. The exit code is 1 if a row cannot be read, and 2 if the script cannot be
/// read or the output cannot be written.
pub fn answer_script<R: RowInterpreter>(rt: &HostRuntime, rows: &mut R) -> ExitCode {
    let Ok(script) = io::read_to_string(rt.alloc(), rt.reader()) else {
        return ExitCode::from(2);
    };
    let mut out = Answer::new(rt.alloc());
    let all_read = write_rows(rt.alloc(), rows, script.as_str(), &mut out);
    if !is_told(rt, &out) {
        return ExitCode::from(2);
    }
    ExitCode::from(if all_read { 0 } else { 1 })
}
