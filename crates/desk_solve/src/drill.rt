//! The number of positions of a seed in which White mates in one move.

ghost use Rattle.std.specs.Prelude.{◌≡◌, ◌↔◌, ◌<◌, ◌≤◌, Err, IfOk, IsTrue, OnOk, length};
ghost use Rattle.game_rules.specs.Game.{Sound, Value};
ghost use Rattle.desk_solve.specs.Drill.{DrillFinds, DrillReports, DrillStops};
ghost use Rattle.desk_solve.specs.Drill as specs;
ghost use Rattle.desk_report.specs.Ports.{EndsOnSink};
ghost use Rattle.desk_verdict.specs.Verdict.{ExceedsAt, FitsBudget, IfOver};

use crate::drill_positions::{Generator, problem_of};
use chess_text::line_buffer::LineBuffer;
use desk_args::DEFAULT_STATES;
use desk_base::Sink;
use desk_report::{Status, print};
use desk_text::Problem;
use desk_verdict::{ProblemSolver, print_error};
use limits::Budget;
use std::alloc::Global;
use winning_sets::SolveError;

/// Writes in how many of `count` positions, which follow from the seed, White mates in one move.
pub fn drill<K: Sink>(alloc: Global, seed: u64, count: u8, sink: &mut K) -> Status
    ensures ends { EndsOnSink K.Sink result (DrillReports seed count) (0 < count) sink.old sink.new }
{
    match count_mates(alloc, seed, count) {
        Ok(mates) => {
            let line = drill_line(mates, count);
            print(sink, line.as_slice())
        }
        Err(error) => print_error(sink, error),
    }
}

/// Returns the number of the `count` positions in which White mates in one move.
fn count_mates(alloc: Global, seed: u64, count: u8) -> Result<u8, SolveError>
    ensures found { IfOk result (DrillFinds seed count) }
    ensures step { IfOver result (DrillStops seed count) }
    ensures memory { result ≡ Err SolveError.Memory → 0 < count }
{
    let mut generator = Generator { state: seed };
    let mut mates = 0;
    for _number in 0..count {
        let problem = problem_of(generator.next());
        let won = is_mate_in_one(alloc, &problem)?;
        mates += u8::from(won);
    }
    Ok(mates)
}

/// Whether the winner mates in one move.
fn is_mate_in_one(alloc: Global, problem: &Problem) -> Result<bool, SolveError>
    requires { Sound problem.now.position }
    ensures won { IfOk result (λ won. IsTrue won ↔ Value problem.now.winner 1 problem.now.position) }
    ensures fits { OnOk result (FitsBudget problem.now DEFAULT_STATES 1) }
    ensures step { IfOver result (ExceedsAt problem.now DEFAULT_STATES 1) }
{
    let mut solver = ProblemSolver::new(alloc, problem, Budget::new(DEFAULT_STATES));
    Ok(solver.mates_within(1)?.is_some())
}

/// Returns the line with the number of the `count` positions in which White mates in one move.
fn drill_line(mates: u8, count: u8) -> LineBuffer
    ensures { result ≡ specs.drill_line mates count }
{
    let mut line = LineBuffer::new();
    line.push_number(i64::from(mates));
    line.push(b" of ");
    line.push_number(i64::from(count));
    line.push(b" mate in 1\n");
    line
}
