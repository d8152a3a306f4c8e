//! Writes an answer.

ghost use Rattle.std.specs.Prelude.{◌≡◌};
ghost use Rattle.desk_report.specs.Outcome.{IsDoneWith};
ghost use Rattle.desk_report.specs.Ports.{EndsOnSink};

use crate::status::Status;
use desk_base::{Sink, put_all};

/// Writes the text and returns the status: `Done`, or the fault of the sink.
pub fn print<K: Sink>(sink: &mut K, text: &[u8]) -> Status
    ensures ends { EndsOnSink K.Sink result (IsDoneWith text.now) ⊥ sink.old sink.new }
{
    match put_all(sink, text) {
        Ok(()) => Status::Done,
        Err(_) => Status::WriteFault,
    }
}
