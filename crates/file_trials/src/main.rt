//! The test program `file_trials`: tests strategy files.
//!
//! It performs a script of rows from the standard input and writes the result of each row. A row reads or writes the
//! strategy file that it names. `docs/TESTING.md` describes the rows.
#![tactic(auto)]

mod outcome;
mod rows;
mod spelling;

use rows::{file_row, noise_row, of_file};
use std::process::ExitCode;
use trial_rows::{Named, Row, RowError, RowInterpreter, answer_script};

/// The bytes of the files that rows have named.
#[derive(Drop)]
struct Files {
    named: Named<Vec<u8>>,
}

impl RowInterpreter for Files {
    fn answer(&mut self, kind: &str, row: &mut Row) -> Result<(), RowError> {
        match kind {
            "file" => file_row(&mut self.named, row),
            "noise" => noise_row(&mut self.named, row),
            _ => of_file(&self.named, kind, row),
        }
    }
}

fn main(rt: HostRuntime) -> ExitCode {
    let mut files = Files {
        named: Named::new(rt.alloc()),
    };
    answer_script(&rt, &mut files)
}
