//! The test program `diagram_trials`: tests diagrams.
//!
//! It performs a script of rows from the standard input and writes the result of each row. A row builds diagrams step
//! by step; steps that query them have results. `docs/TESTING.md` describes the rows.
#![tactic(auto)]

mod asking;
mod bench;
mod making;
mod writing;

use asking::ask;
use bench::Bench;
use making::make;
use std::process::ExitCode;
use trial_rows::{Fields, Row, RowError, RowInterpreter, answer_script};

/// No row names anything.
#[derive(Drop)]
struct Diagram {}

/// Makes the node of a step, or writes the result of the step after those of earlier ones.
fn do_step(bench: &mut Bench, row: &mut Row) -> Result<(), RowError> {
    let word = row.word()?;
    if let Some(node) = make(bench, word, row)? {
        return Ok(bench.nodes.push(node)?);
    }
    row.part(' ');
    ask(bench, word, row)
}

/// Runs `diagram STEP/STEP ..`: the results of the steps that make no node.
fn diagram_row(row: &mut Row) -> Result<(), RowError> {
    let mut bench = Bench::new(row.alloc);
    for step in row.rest().split('/') {
        row.fields = Fields::new(step);
        do_step(&mut bench, row)?;
        row.fields.end()?;
    }
    Ok(())
}

impl RowInterpreter for Diagram {
    fn answer(&mut self, kind: &str, row: &mut Row) -> Result<(), RowError> {
        match kind {
            "diagram" => diagram_row(row),
            _ => Err(RowError::Kind),
        }
    }
}

fn main(rt: HostRuntime) -> ExitCode {
    answer_script(&rt, &mut Diagram {})
}
