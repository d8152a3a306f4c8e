//! A game that the winner plays against replies that follow the text.

ghost use Rattle.std.specs.Prelude.{◌≡◌, ◌≤◌, [], length};
ghost use Rattle.desk_base.specs.Reading.{GoesOn};
ghost use Rattle.play_loop.specs.LineReport.{ending_line};
ghost use Rattle.desk_report.specs.Outcome.{Writes};
ghost use Rattle.desk_report.specs.Ports.{OnSink};
ghost use Rattle.desk_games.specs.Play.{Finishes, PlayEndsOn, status_of};
ghost use Rattle.desk_verdict.specs.Verdict.{IsTask};

use chess_game::Frame;
use desk_base::{LineReader, Sink, Source};
use desk_report::{Status, print, refusal_line, refuse};
use desk_text::{LineWhy, Task};
use desk_verdict::{ProblemSolver, print_error, verdict_line};
use play_loop::{Ending, GameError, play_game};
use std::alloc::Global;
use winner_player::Winner;
use winner_session::Session;

/// Writes the game that the winner plays against the replies that follow the text, or that he does not mate within the
/// task's number of moves. All memory is allocated before the first line.
pub fn play<S: Source, K: Sink>(
    alloc: Global,
    task: &Task,
    reader: &mut LineReader,
    source: &mut S,
    sink: &mut K,
) -> Status
    requires task { IsTask task.now }
    requires goes_on { GoesOn reader.old }
    requires held { length reader.old.pending ≤ 256 }
    requires lines { task.now.problem.lines ≤ 11 }
    ensures ends { PlayEndsOn S.Source K.Sink task.now result (reader, source, sink) }
{
    let mut solver = ProblemSolver::new(alloc, &task.problem, task.budget);
    match solver.mates_within(task.moves) {
        Ok(Some(solved)) => match Session::begin(alloc, solved, Frame::whole()) {
            Ok(session) => {
                let mut winner = Winner::new(session);
                let played = play_game(&mut winner, reader, source, sink, task.problem.lines);
                finish(played, sink)
            }
            Err(_) => {
                refuse(sink, b"memory\n");
                Status::Memory
            }
        },
        Ok(None) => {
            let line = verdict_line(false, task.moves);
            print(sink, line.as_slice())
        }
        Err(error) => print_error(sink, error),
    }
}

/// Writes the last line of a game, if one is due, and returns the status.
pub fn finish<K: Sink>(played: Result<Ending, GameError>, sink: &mut K) -> Status
    ensures ends { OnSink K.Sink (Finishes played result) sink.old sink.new }
    ensures never_falls { K.faults sink.old ≤ K.faults sink.new }
{
    match played {
        Ok(ending) => close(ending, sink),
        Err(GameError::Read) => {
            refuse(sink, b"read fault\n");
            Status::ReadFault
        }
        Err(GameError::Write) => Status::WriteFault,
    }
}

/// Writes the line for an ending that is not part of the text, as far as the sink accepts it.
fn close<K: Sink>(ending: Ending, sink: &mut K) -> Status
    ensures status { result ≡ status_of ending }
    ensures written { OnSink K.Sink (Writes [] (ending_line ending)) sink.old sink.new }
    ensures never_falls { K.faults sink.old ≤ K.faults sink.new }
{
    match ending {
        Ending::Mated | Ending::Held | Ending::Stuck => Status::Done,
        Ending::Wide => {
            refuse(sink, b"wide\n");
            Status::Wide
        }
        Ending::Quit | Ending::NoLine => {
            refuse(sink, b"ended\n");
            Status::Ended
        }
        Ending::Many => {
            refuse(sink, b"too many lines\n");
            Status::TooMany
        }
        Ending::CutAt(number) => {
            let line = refusal_line(number, LineWhy::Cut);
            refuse(sink, line.as_slice());
            Status::Text
        }
        Ending::LongAt(number) => {
            let line = refusal_line(number, LineWhy::Long);
            refuse(sink, line.as_slice());
            Status::Text
        }
    }
}
