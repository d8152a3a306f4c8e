//! The least number of moves within which the winner mates.

ghost use Rattle.std.specs.Prelude.{◌≡◌, Err, IfOk};
ghost use Rattle.desk_solve.specs.Least.{LeastFinds, LeastReports, LeastStops};
ghost use Rattle.desk_solve.specs.Least as specs;
ghost use Rattle.desk_report.specs.Ports.{EndsOnSink};
ghost use Rattle.desk_verdict.specs.Verdict.{HasSomeToPlay, IfOver, IsTask, OfTask};

use chess_text::line_buffer::LineBuffer;
use desk_base::Sink;
use desk_report::{Status, print};
use desk_text::Task;
use desk_verdict::{ProblemSolver, number_line, print_error};
use std::alloc::Global;
use winning_sets::SolveError;

/// Writes the least number of moves within which the winner mates, up to the task's limit, or that there is none.
pub fn least<K: Sink>(alloc: Global, task: &Task, sink: &mut K) -> Status
    requires { IsTask task.now }
    ensures ends { EndsOnSink K.Sink result (OfTask LeastReports task.now) (HasSomeToPlay task.now) sink.old sink.new }
{
    match least_moves(alloc, task) {
        Ok(found) => {
            let line = least_line(task.moves, found);
            print(sink, line.as_slice())
        }
        Err(error) => print_error(sink, error),
    }
}

/// The least number of moves up to the limit within which the winner mates. What is reached is computed once for all of them.
fn least_moves(alloc: Global, task: &Task) -> Result<Option<u8>, SolveError>
    requires { IsTask task.now }
    ensures found { IfOk result (OfTask LeastFinds task.now) }
    ensures step { IfOver result (OfTask LeastStops task.now) }
    ensures memory { result ≡ Err SolveError.Memory → HasSomeToPlay task.now }
{
    let limit = task.moves;
    let mut solver = ProblemSolver::new(alloc, &task.problem, task.budget);
    for moves in 0..=limit {
        if solver.mates_within(moves)?.is_some() {
            return Ok(Some(moves));
        }
    }
    Ok(None)
}

/// The line that says within how few moves the winner mates, if he does within the limit.
fn least_line(limit: u8, found: Option<u8>) -> LineBuffer
    ensures { result ≡ specs.least_line limit found }
{
    match found {
        Some(moves) => number_line(b"least ", moves),
        None => number_line(b"none up to ", limit),
    }
}
