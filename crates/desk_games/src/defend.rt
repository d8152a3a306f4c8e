//! A game that the loser plays against moves that follow the text.

ghost use Rattle.std.specs.Prelude.{◌≤◌, length};
ghost use Rattle.desk_base.specs.Reading.{GoesOn};
ghost use Rattle.desk_games.specs.Defend.{DefendEndsOn};
ghost use Rattle.desk_verdict.specs.Verdict.{IsTask};

use crate::play::finish;
use chess_game::Frame;
use desk_base::{LineReader, Sink, Source};
use desk_report::{Status, print, refuse};
use desk_text::Task;
use desk_verdict::{print_error, verdict_line};
use loser_player::Loser;
use loser_session::Defence;
use play_loop::play_game;
use std::alloc::Global;
use winning_sets::solve;

/// Writes the game that the loser plays against the moves that follow the text, or that the winner mates within the
/// task's number of moves. All memory is allocated before the first line.
pub fn defend<S: Source, K: Sink>(
    alloc: Global,
    task: &Task,
    reader: &mut LineReader,
    source: &mut S,
    sink: &mut K,
) -> Status
    requires task { IsTask task.now }
    requires goes_on { GoesOn reader.old }
    requires held { length reader.old.pending ≤ 256 }
    requires lines { task.now.problem.lines ≤ 11 }
    ensures ends { DefendEndsOn S.Source K.Sink task.now result (reader, source, sink) }
{
    let problem = &task.problem;
    let solved = match solve(
        alloc,
        &problem.position,
        problem.winner,
        task.moves,
        task.budget,
    ) {
        Ok(solved) => solved,
        Err(error) => return print_error(sink, error),
    };
    if solved.verdict() {
        let line = verdict_line(true, task.moves);
        return print(sink, line.as_slice());
    }
    match Defence::begin(alloc, solved, task.budget, Frame::whole()) {
        Ok(defence) => {
            let mut loser = Loser::new(defence);
            let played = play_game(&mut loser, reader, source, sink, problem.lines);
            finish(played, sink)
        }
        Err(_) => {
            refuse(sink, b"memory\n");
            Status::Memory
        }
    }
}
