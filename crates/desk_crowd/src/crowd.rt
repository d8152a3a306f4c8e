//! Whether the winner of a crowd mates within a number of moves.

ghost use Rattle.std.specs.Prelude.{◌≡◌, ◌↔◌, ◌≤◌, [], IfErr, IsOk};
ghost use Rattle.game_rules.specs.Game.{SoundWithKings};
ghost use Rattle.chess_text.specs.Grammar.{crowds};
ghost use Rattle.chess_game.specs.Unsoundness.{IsFirstUnsoundness};
ghost use Rattle.chess_text.specs.PositionText.{IsDraftOf, drafted};
ghost use Rattle.line_engine.specs.Nodes.{position_of};
ghost use Rattle.line_engine.specs.declared.engine.TheConstants.{MOST_CROWD_MOVES};
ghost use Rattle.desk_report.specs.Outcome.{Writes};
ghost use Rattle.desk_report.specs.Ports.{EndsOnSink, OnSink};
ghost use Rattle.desk_crowd.specs.Crowd.{CrowdEndsOn, CrowdReports, IsCrowdOf, problem_in};
ghost use Rattle.desk_crowd.specs.Crowd as specs;

use chess_game::{Unsound, crowd_soundness};
use chess_text::line_buffer::LineBuffer;
use chess_text::{Draft, Grammar};
use desk_base::{LineReader, Sink, Source};
use desk_report::{Status, print, push_large, refusal_line, refuse, unsound_line};
use desk_text::{TextEnd, read_text};
use desk_verdict::verdict_line;
use limits::Budget;
use line_engine::{Crowd, CrowdError, MOST_CROWD_MOVES, decide_crowd};
use std::alloc::Global;

/// Reads the crowd text at the front of the source, and writes whether its winner mates within `moves` moves.
pub fn crowd<S: Source, K: Sink>(
    alloc: Global,
    moves: u8,
    budget: Budget,
    source: &mut S,
    sink: &mut K,
) -> Status
    requires moves { moves ≤ MOST_CROWD_MOVES }
    ensures ends { CrowdEndsOn S.Source K.Sink moves budget result (source, sink) }
{
    let mut reader = LineReader::new();
    let text = match read_text(Grammar::crowds(), &mut reader, source) {
        Ok(text) => text,
        Err(end) => return refuse_text(sink, end),
    };
    if let Err(why) = draft_soundness(&text.draft) {
        let line = unsound_line(why);
        refuse(sink, line.as_slice());
        return Status::Unsound;
    }
    let crowd = crowd_of(&text.draft);
    answer(alloc, &crowd, moves, budget, sink)
}

/// Writes why there is no text, as far as the sink takes it.
fn refuse_text<K: Sink>(sink: &mut K, end: TextEnd) -> Status
    ensures status { result ≡ specs.status_of end }
    ensures written { OnSink K.Sink (Writes [] (specs.end_line end)) sink.old sink.new }
{
    match end {
        TextEnd::Fault => {
            refuse(sink, b"read fault\n");
            Status::ReadFault
        }
        TextEnd::Refused(number, why) => {
            let line = refusal_line(number, why);
            refuse(sink, line.as_slice());
            Status::Text
        }
    }
}

/// Whether the position that a text says is sound; and if not, the first reason.
fn draft_soundness(draft: &Draft) -> Result<(), Unsound>
    ensures ok { IsOk result ↔ SoundWithKings (drafted draft.now) }
    ensures reason { IfErr result (IsFirstUnsoundness (drafted draft.now)) }
{
    crowd_soundness(draft.men(), draft.turn())
}

/// The crowd that a text says.
#[tactic(auto, using(crate::proofs::Drafted::crowd_is))]
fn crowd_of<'a>(draft: &'a Draft) -> Crowd<'a>
    requires { IsDraftOf crowds draft.now }
    ensures { IsCrowdOf draft.now result }
{
    match Crowd::new(draft.men(), draft.turn(), draft.winner()) {
        Some(crowd) => crowd,
        None => unreachable!(),
    }
}

/// Writes whether the winner mates.
fn answer<K: Sink>(alloc: Global, crowd: &Crowd, moves: u8, budget: Budget, sink: &mut K) -> Status
    requires sound { SoundWithKings (position_of crowd.now) }
    requires moves { moves ≤ MOST_CROWD_MOVES }
    ensures ends { EndsOnSink K.Sink result (CrowdReports moves budget (problem_in crowd.now)) (Unit {0}) sink.old sink.new }
{
    match decide_crowd(alloc, crowd, moves, budget) {
        Ok(mates) => {
            let line = verdict_line(mates, moves);
            print(sink, line.as_slice())
        }
        Err(CrowdError::Over { step }) => {
            let line = step_line(step);
            refuse(sink, line.as_slice());
            Status::Budget
        }
        Err(CrowdError::Memory) => {
            refuse(sink, b"memory\n");
            Status::Memory
        }
    }
}

/// Returns the line that names a step that exceeds the budget.
fn step_line(step: u128) -> LineBuffer
    ensures { result ≡ specs.step_line step }
{
    let mut line = LineBuffer::new();
    line.push(b"over budget at crowd ");
    push_large(&mut line, step);
    line.push(b"\n");
    line
}
