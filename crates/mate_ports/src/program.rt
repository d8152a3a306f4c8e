//! The body of the program, for given arguments and ports.

ghost use Rattle.std.specs.Prelude.{◌≡◌, IfOk};
ghost use Rattle.std.specs.Process.{exit_status};
ghost use Rattle.desk_report.specs.Codes.{code_of};
ghost use Rattle.desk_report.specs.Ports.{OnSink};
ghost use Rattle.mate_desk.specs.Faultless.{held};
ghost use Rattle.mate_ports.specs.InMemory.{ProgramEndsExactly};
ghost use Rattle.mate_ports.specs.Program.{ProgramEndsOn, RefusesWords};

use crate::standard::StdSink;
use desk_base::{MemFiles, Shelf, Sink, Source, put_all};
use mate_desk::{Status, UsageWhy, run};
use std::alloc::{AllocError, Global};
use std::io;
use std::process::ExitCode;

/// Why there are no arguments.
#[derive(Clone, Copy, PartialEq, Eq)]
pub enum WordsError {
    /// There is no memory for them.
    Memory,
    /// One of them is not text, or the system does not expose them.
    Untold,
}

impl From<AllocError> for WordsError {
    ghost use Rattle.std.specs.Prelude.{◌≡◌};
    ghost use Rattle.mate_ports.specs.declared.program.WordsError.TheVariants.{Memory};

    ghost from_gives = { λ _ why. why ≡ Memory };

    fn from(_error: AllocError) -> Self {
        WordsError::Memory
    }
}

impl From<io::Error> for WordsError {
    ghost use Rattle.std.specs.Prelude.{◌≡◌, ◌↔◌};
    ghost use Rattle.std.specs.IoError.{error_kind};
    ghost use Rattle.std.specs.declared.io.ErrorKind.TheVariants.{OutOfMemory};
    ghost use Rattle.mate_ports.specs.declared.program.WordsError.TheVariants.{Memory};

    // The error is out of memory if and only if the system says so.
    ghost from_gives = { λ error why. (why ≡ Memory) ↔ (error_kind error ≡ OutOfMemory) };

    fn from(error: io::Error) -> Self {
        if error.kind() == io::ErrorKind::OutOfMemory {
            WordsError::Memory
        } else {
            WordsError::Untold
        }
    }
}

/// Executes the command that the arguments name, and returns the status. If there are no arguments, nothing is read.
pub fn perform<S: Source, K: Sink, H: Shelf>(
    words: Result<Vec<String>, WordsError>,
    source: &mut S,
    sink: &mut K,
    shelf: &mut H,
    alloc: Global,
) -> Status
    ensures { ProgramEndsOn S.Source K.Sink H.Shelf words result (source, sink, shelf) }
{
    match words {
        Ok(words) => run(alloc, &words, source, sink, shelf),
        Err(why) => refuse_words(why, sink),
    }
}

/// Writes that there are no arguments, unless memory ran out.
fn refuse_words<K: Sink>(why: WordsError, sink: &mut K) -> Status
    ensures { OnSink K.Sink (RefusesWords why result) sink.old sink.new }
{
    match why {
        WordsError::Memory => Status::Memory,
        WordsError::Untold => {
            let _ = put_all(sink, UsageWhy::Unknown.line());
            Status::Usage
        }
    }
}

/// The result of a run over bytes in memory.
#[derive(Drop)]
pub struct Ran<'a> {
    pub status: Status,
    /// The bytes of the input that were not taken.
    pub rest: &'a [u8],
    /// The output, after what it had before.
    pub output: Vec<u8>,
    /// The files after the run.
    pub files: MemFiles,
}

/// Runs the body of the program with a slice as input, a vector as output and files in memory. The only port that can
/// fail is the vector, if memory for the output runs out; then the result is an error.
pub fn perform_in_memory<'a>(
    words: Result<Vec<String>, WordsError>,
    input: &'a [u8],
    output: Vec<u8>,
    mut files: MemFiles,
    alloc: Global,
) -> Result<Ran<'a>, AllocError>
    ensures exact { IfOk result (ProgramEndsExactly words (held input.now output.items files)) }
{
    let mut rest = input;
    let mut sink = StdSink::new(output);
    let status = perform(words, &mut rest, &mut sink, &mut files, alloc);
    let (output, write_faults) = sink.into_parts();
    if write_faults > 0 {
        return Err(AllocError);
    }
    Ok(Ran {
        status,
        rest,
        output,
        files,
    })
}

/// Returns the exit code of the process.
pub fn exit_of(status: Status) -> ExitCode
    ensures { exit_status result ≡ code_of status }
{
    ExitCode::from(status.code())
}
