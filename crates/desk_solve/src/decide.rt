//! Whether the winner mates within a number of moves.

ghost use Rattle.desk_solve.specs.Decide.{DecideReports};
ghost use Rattle.desk_report.specs.Ports.{EndsOnSink};
ghost use Rattle.desk_verdict.specs.Verdict.{HasSomeToPlay, IsTask, OfTask};

use desk_base::Sink;
use desk_report::{Status, print};
use desk_text::Task;
use desk_verdict::{ProblemSolver, print_error, verdict_line};
use std::alloc::Global;

/// Writes whether the winner mates within the task's number of moves.
pub fn decide<K: Sink>(alloc: Global, task: &Task, sink: &mut K) -> Status
    requires { IsTask task.now }
    ensures ends { EndsOnSink K.Sink result (OfTask DecideReports task.now) (HasSomeToPlay task.now) sink.old sink.new }
{
    let mut solver = ProblemSolver::new(alloc, &task.problem, task.budget);
    match solver.mates_within(task.moves) {
        Ok(found) => {
            let line = verdict_line(found.is_some(), task.moves);
            print(sink, line.as_slice())
        }
        Err(error) => print_error(sink, error),
    }
}
