//! A game of a player against lines.
ghost use Rattle.std.specs.Prelude.{◌≡◌, ◌≤◌, ◌<◌, ◌+◌, ◌^◌, IsErrOf, None, length};
ghost use Rattle.desk_base.specs.Faults.{HasRisen};
ghost use Rattle.play_loop.specs.LineReport.{most_lines};
ghost use Rattle.play_loop.specs.Played.{IsPlayedOn, IsSettled};

use crate::ending::Ending;
use crate::player::Player;
use crate::turn::{go_on, reply};
use desk_base::{Line, LineError, LineReader, Sink, Source};

/// Why a game was not played to its end.
#[derive(Clone, Copy, PartialEq, Eq)]
pub enum GameError {
    /// The source failed when a line was due.
    Read,
    /// The sink has failed within the text.
    Write,
}

/// The most lines that are read in a game.
const MOST_LINES: u32 = 10_000;

/// Plays a game to its end from its current state, and writes its report, each line as soon as it is known. The line
/// for an ending that is not part of the text is not written. `before` is the number of lines of the input before those
/// of the game. Only the player allocates.
pub fn play_game<P: Player, S: Source, K: Sink>(
    player: &mut P,
    reader: &mut LineReader,
    source: &mut S,
    sink: &mut K,
    before: u32,
) -> Result<Ending, GameError>
    requires goes_on { reader.old.stopped ≡ None }
    requires held { length reader.old.pending ≤ 256 }
    requires numbers { before + most_lines < 2 ^ 32 }
    ensures plays { IsPlayedOn P.rules S.Source K.Sink result before (P.seen player.old) (P.seen player.new) (reader, source, sink) }
    ensures settled { IsSettled P.rules before (P.seen player.old) → (source.new ≡ source.old) × (reader.new ≡ reader.old) }
    ensures read_failed { IsErrOf result GameError.Read → HasRisen (S.faults source.old) (S.faults source.new) }
    ensures write_failed { IsErrOf result GameError.Write → HasRisen (K.faults sink.old) (K.faults sink.new) }
    ensures reads_never_fall { S.faults source.old ≤ S.faults source.new }
    ensures writes_never_fall { K.faults sink.old ≤ K.faults sink.new }
{
    match go_on(player, sink) {
        Ok(None) => {}
        Ok(Some(ending)) => return Ok(ending),
        Err(_) => return Err(GameError::Write),
    }
    for read in 0..MOST_LINES {
        match reader.next_line(source) {
            Ok(Line::Full(_)) => match reply(player, reader.line(), sink) {
                Ok(None) => {}
                Ok(Some(ending)) => return Ok(ending),
                Err(_) => return Err(GameError::Write),
            },
            Ok(Line::End) => return Ok(Ending::NoLine),
            Err(LineError::Cut) => return Ok(Ending::CutAt(before + read + 1)),
            Err(LineError::TooLong) => return Ok(Ending::LongAt(before + read + 1)),
            Err(LineError::Read) => return Err(GameError::Read),
        }
    }
    Ok(Ending::Many)
}
