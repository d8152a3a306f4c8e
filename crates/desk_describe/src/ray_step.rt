//! The step at which the description of a ray stops.

ghost use Rattle.std.specs.Prelude.{◌≡◌, ◌≤◌, length};
ghost use Rattle.desk_report.specs.Ports.{EndsOnSink};
ghost use Rattle.desk_describe.specs.RayStep.{NamesRayStep};
ghost use Rattle.desk_describe.specs.RayStep as specs;
ghost use Rattle.desk_describe.specs.declared.ray_step.DescribeError.TheVariants.{Memory};

use chess_text::line_buffer::LineBuffer;
use desk_base::Sink;
use desk_report::{Status, refuse};
use std::alloc::AllocError;

/// The purpose of a step.
#[derive(Clone, Copy)]
pub enum RayPart {
    /// The formula of the ray's distances.
    Line,
    /// The formulas by which periods are tried.
    Period,
}

/// A step of the description of a ray: the man, the number of the ray, counted from 0, the purpose of the step, and its
/// number, counted from 1.
#[derive(Clone, Copy)]
pub struct RayStep {
    pub man: u8,
    pub ray: u8,
    pub part: RayPart,
    pub at: u32,
}

/// Why rays are not described.
#[derive(Clone, Copy)]
pub enum DescribeError {
    /// The step exceeds the budget.
    Over(RayStep),
    /// Memory ran out.
    Memory,
}

impl From<AllocError> for DescribeError {
    ghost from_gives = { λ _ why. why ≡ Memory };

    fn from(_: AllocError) -> Self {
        DescribeError::Memory
    }
}

/// Writes why rays are not described, and returns the status.
pub(crate) fn print_stop<K: Sink>(sink: &mut K, error: DescribeError) -> Status
    ensures ends { EndsOnSink K.Sink result (NamesRayStep error) (error ≡ DescribeError.Memory) sink.old sink.new }
{
    match error {
        DescribeError::Over(step) => {
            let line = ray_step_line(step);
            refuse(sink, line.as_slice());
            Status::Budget
        }
        DescribeError::Memory => {
            refuse(sink, b"memory\n");
            Status::Memory
        }
    }
}

/// Returns the line that names a step that exceeds the budget.
fn ray_step_line(step: RayStep) -> LineBuffer
    ensures { result ≡ specs.ray_step_line step }
{
    let mut line = LineBuffer::new();
    line.push(b"over budget at describe man ");
    line.push_number(i64::from(step.man));
    line.push(b" ray ");
    line.push_number(i64::from(step.ray));
    line.push(b" ");
    line.push(part_word(step.part));
    line.push(b" ");
    line.push_number(i64::from(step.at));
    line.push(b"\n");
    line
}

/// The word for what a step is for.
fn part_word(part: RayPart) -> &'static [u8]
    ensures word { result.now ≡ specs.part_word part }
    ensures short { length result.now ≤ 6 }
{
    match part {
        RayPart::Line => b"line",
        RayPart::Period => b"period",
    }
}
