//! The test program `port_trials`: tests the ports and runs of `mate`.
//!
//! It performs a script of rows from the standard input and writes the result of each row. The rows call the ports of
//! the program `mate` on files of the working folder, and perform its runs over such files and over bytes in memory.
//! `docs/TESTING.md` describes the rows.
#![tactic(auto)]

mod calls;
mod runs;

use calls::{fetch_row, keep_row, read_row, refused_row, write_row};
use desk_base::MemFiles;
use runs::{memory_row, run_row};
use std::process::ExitCode;
use trial_rows::{Row, RowError, RowInterpreter, answer_script};

/// Where the files are that rows name: those of the working folder, and those in memory, which stay from row to row.
#[derive(Drop)]
struct Places<'a> {
    system: &'a HostRuntime,
    memory: MemFiles,
}

impl<'a> RowInterpreter for Places<'a> {
    fn answer(&mut self, kind: &str, row: &mut Row) -> Result<(), RowError> {
        match kind {
            "keep" => keep_row(self.system, row),
            "fetch" => fetch_row(self.system, row),
            "read" => read_row(self.system, row),
            "write" => write_row(self.system, row),
            "refused" => refused_row(self.system, row),
            "run" => run_row(self.system, row),
            "memory" => memory_row(self.system, &mut self.memory, row),
            _ => Err(RowError::Kind),
        }
    }
}

fn main(rt: HostRuntime) -> ExitCode {
    let mut places = Places {
        system: &rt,
        memory: MemFiles::new(rt.alloc()),
    };
    answer_script(&rt, &mut places)
}
