//! A game that the winner of a strategy file plays against replies.

ghost use Rattle.std.specs.Prelude.{◌≡◌};
ghost use Rattle.game_rules.specs.Game.{Value};
ghost use Rattle.winning_sets.specs.declared.origin.Origin.TheVariants as origin;
ghost use Rattle.desk_games.specs.Resume.{GameEndsOn, ResumeEndsOn};

use crate::play::finish;
use chess_game::Frame;
use desk_base::{LineReader, Shelf, Sink, Source};
use desk_files::{fetch_claim, refuse_file};
use desk_report::{Status, refuse};
use desk_text::FileTask;
use play_loop::play_game;
use std::alloc::Global;
use winner_player::Winner;
use winner_session::Session;
use winning_sets::Solved;

/// Checks the claim of a file, and writes the game that its winner plays by its sets against the replies in the input.
pub fn resume<S: Source, K: Sink, H: Shelf>(
    alloc: Global,
    file: &FileTask,
    source: &mut S,
    sink: &mut K,
    shelf: &mut H,
) -> Status
    ensures ends { ResumeEndsOn S.Source K.Sink H.Shelf file.now result (source, sink, shelf) }
{
    match fetch_claim(alloc, file.name, file.budget, shelf) {
        Ok(solved) => play_on(alloc, solved, source, sink),
        Err(why) => refuse_file(sink, why),
    }
}

/// Writes the game that the winner of a claim plays by its sets. All memory is taken before the first line.
fn play_on<S: Source, K: Sink>(
    alloc: Global,
    solved: Solved,
    source: &mut S,
    sink: &mut K,
) -> Status
    requires origin { solved.origin ≡ origin.Claim }
    requires value { Value solved.winner solved.moves solved.position }
    ensures ends { GameEndsOn S.Source K.Sink solved result (source, sink) }
{
    match Session::begin(alloc, solved, Frame::whole()) {
        Ok(session) => {
            let mut winner = Winner::new(session);
            let mut reader = LineReader::new();
            let played = play_game(&mut winner, &mut reader, source, sink, 0);
            finish(played, sink)
        }
        Err(_) => {
            refuse(sink, b"memory\n");
            Status::Memory
        }
    }
}
