//! The test program `automaton_trials`: tests automata and formulas.
//!
//! It performs a script of rows from the standard input and writes the result of each row. A row spells automata or
//! formulas and calls the libraries on them. `docs/TESTING.md` describes the rows.
#![tactic(auto)]

mod answers;
mod formulas;
mod letters;
mod members;
mod periods;
mod rays;
mod reduced_auto;
mod spelling;
mod table_text;
mod tables;

use answers::{write_asked, write_same, write_told};
use formulas::write_memo;
use reduced_auto::ReducedAuto;
use spelling::{MOST_DEPTH, automaton};
use std::process::ExitCode;
use trial_rows::{Named, Row, RowError, RowInterpreter, answer_script};

/// The automata that rows have named.
#[derive(Drop)]
struct Automata {
    named: Named<ReducedAuto>,
}

/// `set NAME A`: names an automaton.
fn name_automaton(named: &mut Named<ReducedAuto>, row: &mut Row) -> Result<(), RowError> {
    let name = row.word()?;
    let set = automaton(named, MOST_DEPTH, row)?;
    named.put(row.alloc, name, set)
}

impl RowInterpreter for Automata {
    fn answer(&mut self, kind: &str, row: &mut Row) -> Result<(), RowError> {
        match kind {
            "set" => name_automaton(&mut self.named, row),
            "memo" => write_memo(row),
            "same" => write_same(&self.named, row),
            "accepts" | "member" | "periods" | "rays" => write_asked(&self.named, kind, row),
            _ => write_told(&self.named, kind, row),
        }
    }
}

fn main(rt: HostRuntime) -> ExitCode {
    let mut automata = Automata {
        named: Named::new(rt.alloc()),
    };
    answer_script(&rt, &mut automata)
}
