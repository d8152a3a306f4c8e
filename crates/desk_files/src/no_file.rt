//! Why no file is stored.

ghost use Rattle.std.specs.Prelude.{◌≡◌, ◌≤◌, []};
ghost use Rattle.desk_files.specs.Keeping.{no_file_line, no_file_status, unkept, unwritten};
ghost use Rattle.desk_report.specs.Outcome.{Writes};
ghost use Rattle.desk_report.specs.Ports.{OnSink};

use crate::file_line::{set_too_large_line, too_large_line};
use desk_base::{KeepError, Sink};
use desk_report::{Status, refuse};
use strategy_writer::WriteFileError;

/// Why no file is stored.
#[derive(Clone, Copy, PartialEq, Eq)]
pub enum NoFile {
    /// It would have this many bytes, which are too many.
    TooLarge(u128),
    /// A set of it would have this many states, which are too many.
    SetTooLarge(u32),
    /// The shelf has failed.
    Fault,
    /// There is no memory for the file.
    Memory,
}

impl From<WriteFileError> for NoFile {
    ghost from_gives = { λ error why. why ≡ unwritten error };

    fn from(error: WriteFileError) -> NoFile {
        match error {
            WriteFileError::TooLarge { length } => NoFile::TooLarge(length),
            WriteFileError::SetTooLarge { states } => NoFile::SetTooLarge(states),
            WriteFileError::Memory => NoFile::Memory,
        }
    }
}

impl From<KeepError> for NoFile {
    ghost from_gives = { λ error why. why ≡ unkept error };

    fn from(error: KeepError) -> NoFile {
        match error {
            KeepError::Failed => NoFile::Fault,
            KeepError::Memory => NoFile::Memory,
        }
    }
}

/// Writes why no file is stored, as far as the sink accepts it, and returns the status.
pub(crate) fn refuse_keeping<K: Sink>(sink: &mut K, why: NoFile) -> Status
    ensures status { result ≡ no_file_status why }
    ensures written { OnSink K.Sink (Writes [] (no_file_line why)) sink.old sink.new }
    ensures never_falls { K.faults sink.old ≤ K.faults sink.new }
{
    match why {
        NoFile::TooLarge(length) => {
            let line = too_large_line(length);
            refuse(sink, line.as_slice());
            Status::File
        }
        NoFile::SetTooLarge(states) => {
            let line = set_too_large_line(states);
            refuse(sink, line.as_slice());
            Status::File
        }
        NoFile::Fault => {
            refuse(sink, b"shelf fault\n");
            Status::ShelfFault
        }
        NoFile::Memory => {
            refuse(sink, b"memory\n");
            Status::Memory
        }
    }
}
