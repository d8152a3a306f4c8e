//! The line for a step that exceeds the budget.

ghost use Rattle.std.specs.Prelude.{◌≡◌, ◌≤◌, length};
ghost use Rattle.desk_report.specs.Ports.{EndsOnSink};
ghost use Rattle.desk_verdict.specs.StepLines.{NamesStep};
ghost use Rattle.desk_verdict.specs.StepLines as specs;

use chess_text::line_buffer::LineBuffer;
use desk_base::Sink;
use desk_report::{Status, refuse};
use winning_sets::{Part, SolveError, StepName};

/// Writes why a plan was not executed to its end, and returns the status.
pub fn print_error<K: Sink>(sink: &mut K, error: SolveError) -> Status
    ensures ends { EndsOnSink K.Sink result (NamesStep error) (error ≡ SolveError.Memory) sink.old sink.new }
{
    match error {
        SolveError::Over(step) => {
            let line = budget_line(step);
            refuse(sink, line.as_slice());
            Status::Budget
        }
        SolveError::Memory => {
            refuse(sink, b"memory\n");
            Status::Memory
        }
    }
}

/// Returns the line that names a step that exceeds the budget.
pub fn budget_line(step: StepName) -> LineBuffer
    ensures { result ≡ specs.budget_line step }
{
    let mut line = LineBuffer::new();
    line.push(b"over budget at moves ");
    line.push_number(i64::from(step.moves));
    line.push(b" ply ");
    line.push_number(i64::from(step.ply));
    line.push(b" men ");
    line.push_number(i64::from(step.mask));
    line.push(b" part ");
    line.push(part_word(step.part));
    line.push(b" at ");
    line.push_number(i64::from(step.at));
    line.push(b"\n");
    line
}

/// The word for a part of a plan.
fn part_word(part: Part) -> &'static [u8]
    ensures word { result.now ≡ specs.part_word part }
    ensures short { length result.now ≤ 6 }
{
    match part {
        Part::Point => b"point",
        Part::Image => b"image",
        Part::Safe => b"safe",
        Part::Win => b"win",
        Part::Rest => b"rest",
        Part::Escape => b"escape",
        Part::Calm => b"calm",
        Part::Check => b"check",
        Part::Quiet => b"quiet",
        Part::Reply => b"reply",
        Part::Lost => b"lost",
        Part::Same => b"same",
        Part::Guard => b"guard",
        Part::First => b"first",
        Part::Answer => b"answer",
        Part::Left => b"left",
        Part::Stale => b"stale",
        Part::Place => b"place",
        Part::Moved => b"moved",
    }
}
