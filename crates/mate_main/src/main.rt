//! The program `mate`: executes the command that its arguments name.
//!
//! It uses the standard input, the standard output and the files of the working folder.
#![tactic(auto)]

use mate_ports::{FolderShelf, StdSink, StdSource, WordsError, exit_of, perform};
use std::process::ExitCode;
use std::{env, io};

/// Returns the arguments after the program's name.
fn words_of(rt: &HostRuntime) -> Result<Vec<String>, WordsError> {
    Ok(env::args(rt)?.skip(1).collect(rt.alloc())?)
}

fn main(rt: HostRuntime) -> ExitCode {
    let mut source = StdSource::new(rt.stdin());
    let mut sink = StdSink::new(io::writer(&rt));
    let mut shelf = FolderShelf::new(&rt);
    let status = perform(
        words_of(&rt),
        &mut source,
        &mut sink,
        &mut shelf,
        rt.alloc(),
    );
    exit_of(status)
}
