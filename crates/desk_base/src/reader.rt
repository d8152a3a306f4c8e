ghost use Rattle.std.specs.Prelude.{◌≡◌, ◌≤◌, [], length, None, IsErrOf};
ghost use Rattle.desk_base.specs.Failing.{SourceFailed};
ghost use Rattle.desk_base.specs.Reading.{GoesOn, KeepsLine, Reading, StaysStopped, Takes, TakesAs, stop_after};

use crate::buffer::{Buffer, LineBytes};
use crate::line::{Line, LineError};
use crate::scan::{ScannedLine, find_line};
use crate::source::Source;
use std::marker::Model;

/// Reads the lines of a source, of at most 200 bytes each, through a buffer of 256 bytes. Contracts see the last whole
/// line, the bytes taken after it, and the final result once there is one.
#[derive(Drop)]
pub struct LineReader {
    held: Buffer,
    line: LineBytes,
    stopped: Option<Result<Line, LineError>>,
}

impl Model for LineReader {
    ghost use Rattle.std.specs.Prelude.{◌≤◌, length};
    ghost use Rattle.desk_base.specs.Reading.{Reading};

    ghost Value = { Reading };

    ghost view = { λ r. record { line = r.line; pending = r.held; stopped = r.stopped } };

    ghost invariant = { λ r. length r.held ≤ 256 };
}

impl LineReader {
    /// Creates a reader that has read nothing.
    pub fn new() -> Self
        ensures { result ≡ record { line = []; pending = []; stopped = None } }
    {
        LineReader {
            held: Buffer::new(),
            line: LineBytes::new(),
            stopped: None,
        }
    }

    /// Returns the last whole line without its LF; empty before the first.
    pub fn line(&self) -> &[u8]
        ensures { result.now ≡ self.now.line }
    {
        self.line.as_slice()
    }

    /// Reads the next line. Any result other than a whole line is final: later calls return it again and take nothing
    /// more. A call may take up to 256 bytes after the line; they are kept for the next call.
    pub fn next_line<S: Source>(&mut self, source: &mut S) -> Result<Line, LineError>
        ensures stopped { StaysStopped result self.old self.new source.old source.new }
        ensures line { GoesOn self.old → KeepsLine result self.old.line self.new.line }
        ensures stops { GoesOn self.old → self.new.stopped ≡ stop_after result }
        // The lines are those of the bytes taken, which are the source's if it exposes them.
        ensures lines { GoesOn self.old → TakesAs result self.old self.new (S.left source.old) (S.left source.new) }
        ensures within { length self.new.pending ≤ 256 }
        ensures failed { GoesOn self.old → IsErrOf result LineError.Read → SourceFailed S.Source source.old source.new }
        ensures never_falls { S.faults source.old ≤ S.faults source.new }
    {
        if let Some(answer) = self.stopped {
            return answer;
        }
        let answer = read_line(&mut self.held, &mut self.line, source);
        if let Ok(Line::Full(_)) = answer {
            return answer;
        }
        self.stopped = Some(answer);
        answer
    }
}

/// Reads the next line into `line`; `held` keeps the bytes taken after it.
fn read_line<S: Source>(
    held: &mut Buffer,
    line: &mut LineBytes,
    source: &mut S,
) -> Result<Line, LineError>
    ensures line { KeepsLine result line.old line.new }
    ensures lines { Takes result held.old line.new held.new (S.left source.old) (S.left source.new) }
    ensures within { length held.new ≤ 256 }
    ensures failed { IsErrOf result LineError.Read → SourceFailed S.Source source.old source.new }
    ensures never_falls { S.faults source.old ≤ S.faults source.new }
{
    let mut scanned = 0;
    loop {
        match find_line(held.as_slice(), scanned) {
            ScannedLine::Whole(len) => {
                line.set(&held.as_slice()[..len]);
                held.advance(len + 1);
                return Ok(Line::Full(len));
            }
            ScannedLine::Long => return Err(LineError::TooLong),
            ScannedLine::Part => {
                scanned = held.as_slice().len();
                match held.fill(source) {
                    Err(_) => return Err(LineError::Read),
                    Ok(0) => return if scanned == 0 {
                        Ok(Line::End)
                    } else {
                        Err(LineError::Cut)
                    },
                    Ok(_) => {}
                }
            }
        }
    }
}
