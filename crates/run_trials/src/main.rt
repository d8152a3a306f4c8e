//! The test program `run_trials`: performs the runs of a script.
//!
//! It reads the script from the standard input and writes what the runs did to the standard output. docs/TESTING.md
//! describes the script.
#![tactic(auto)]

mod case;
mod change;
mod fault;
mod number;
mod port;
mod range;
mod runner;
mod script;
mod spelling;
mod stock;

use runner::Runner;
use script::perform;
use std::io;
use std::process::ExitCode;
use trial_rows::is_told;

fn main(rt: HostRuntime) -> ExitCode {
    let Ok(script) = io::read_to_string(rt.alloc(), rt.reader()) else {
        return ExitCode::FAILURE;
    };
    let mut runner = Runner::new(rt.alloc());
    let is_done = perform(&mut runner, script.as_str());
    if is_told(&rt, &runner.report) && is_done {
        return ExitCode::SUCCESS;
    }
    ExitCode::FAILURE
}
