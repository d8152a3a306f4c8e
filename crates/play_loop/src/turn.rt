//! The result of the start of a game, and of a line.
ghost use Rattle.std.specs.Prelude.{◌≡◌, ◌≤◌, Some, IfOk, OnErr, OnOk, length};
ghost use Rattle.std.specs.Io.KnownBytes.{Appends};
ghost use Rattle.desk_base.specs.Faults.{HasRisen};
ghost use Rattle.desk_base.specs.Moves.{AppendsFront};
ghost use Rattle.chess_text.specs.Replies.{IsTypable};
ghost use Rattle.play_loop.specs.Turns as turns;
ghost use Rattle.play_loop.specs.Turns.{AtMove, AtRest, Comes, IsTurnMade, OfLine, OfMove};

use crate::ending::Ending;
use crate::player::{GameState, Player};
use chess_game::{Move, Side};
use chess_text::line_buffer::LineBuffer;
use chess_text::{MoveText, Typed, read_move};
use desk_base::{Failed, Sink, put_all};

/// The word that a line of the player's begins with.
fn side_word(side: Side) -> &'static [u8]
    ensures word { result.now ≡ turns.side_word side }
    ensures short { length result.now ≡ 6 }
{
    match side {
        Side::White => b"white ",
        Side::Black => b"black ",
    }
}

/// The line of a move of the player.
fn move_line(side: Side, mv: Move) -> LineBuffer
    requires { IsTypable mv }
    ensures { result ≡ turns.move_line side mv }
{
    let mut text = MoveText::new();
    let mut line = LineBuffer::new();
    line.push(side_word(side));
    line.push(text.write(mv));
    line.push(b"\n");
    line
}

/// Returns the word for an ending in the text.
fn ending_word(ending: Ending) -> &'static [u8]
    ensures { result.now ≡ turns.ending_word ending }
{
    match ending {
        Ending::Mated => b"mate\n",
        Ending::Held => b"held\n",
        Ending::Stuck => b"stuck\n",
        _ => b"",
    }
}

/// Tells how the game is over.
fn tell<K: Sink>(sink: &mut K, ending: Ending) -> Result<Option<Ending>, Failed>
    ensures over { IfOk result (λ over. over ≡ Some ending) }
    ensures told { OnOk result (Appends (K.written sink.old) (K.written sink.new) (turns.ending_word ending)) }
    ensures err { OnErr result (AppendsFront (K.written sink.old) (K.written sink.new) (turns.ending_word ending)) }
    ensures failed { OnErr result (HasRisen (K.faults sink.old) (K.faults sink.new)) }
    ensures never_falls { K.faults sink.old ≤ K.faults sink.new }
{
    put_all(sink, ending_word(ending))?;
    Ok(Some(ending))
}

/// What comes of a game in which the player is not to move.
fn rest<P: Player, K: Sink>(player: &mut P, sink: &mut K) -> Result<Option<Ending>, Failed>
    requires still { P.rules.Stands (P.seen player.old) GameState.ToMove → ⊥ }
    ensures comes { IsTurnMade (AtRest P.rules (P.seen player.old)) result (P.seen player.new) (K.written sink.old) (K.written sink.new) }
    ensures failed { OnErr result (HasRisen (K.faults sink.old) (K.faults sink.new)) }
    ensures never_falls { K.faults sink.old ≤ K.faults sink.new }
{
    match player.stand() {
        GameState::Over(ending) => tell(sink, ending),
        GameState::LineDue => Ok(None),
        GameState::ToMove => unreachable!(),
    }
}

/// The player makes his move, if he has one, and its line is written.
fn answer<P: Player, K: Sink>(player: &mut P, sink: &mut K) -> Result<Option<Ending>, Failed>
    requires turn { P.rules.Stands (P.seen player.old) GameState.ToMove }
    requires kept { P.is_kept (P.seen player.old) }
    ensures comes { IsTurnMade (AtMove P.rules (P.seen player.old)) result (P.seen player.new) (K.written sink.old) (K.written sink.new) }
    ensures failed { OnErr result (HasRisen (K.faults sink.old) (K.faults sink.new)) }
    ensures never_falls { K.faults sink.old ≤ K.faults sink.new }
{
    let Some(mv) = player.pick() else {
        return tell(sink, Ending::Wide);
    };
    let line = move_line(player.side(), mv);
    put_all(sink, line.as_slice())?;
    rest(player, sink)
}

/// Continues a game from its current state.
pub(crate) fn go_on<P: Player, K: Sink>(
    player: &mut P,
    sink: &mut K,
) -> Result<Option<Ending>, Failed>
    ensures comes { IsTurnMade (Comes P.rules (P.seen player.old)) result (P.seen player.new) (K.written sink.old) (K.written sink.new) }
    ensures kept { P.is_kept (P.seen player.old) }
    ensures failed { OnErr result (HasRisen (K.faults sink.old) (K.faults sink.new)) }
    ensures never_falls { K.faults sink.old ≤ K.faults sink.new }
{
    match player.stand() {
        GameState::Over(ending) => tell(sink, ending),
        GameState::LineDue => Ok(None),
        GameState::ToMove => answer(player, sink),
    }
}

/// What comes of a move that is typed.
fn make<P: Player, K: Sink>(
    player: &mut P,
    mv: Move,
    sink: &mut K,
) -> Result<Option<Ending>, Failed>
    requires due { P.rules.Stands (P.seen player.old) GameState.LineDue }
    ensures comes { IsTurnMade (OfMove P.rules (P.seen player.old) mv) result (P.seen player.new) (K.written sink.old) (K.written sink.new) }
    ensures failed { OnErr result (HasRisen (K.faults sink.old) (K.faults sink.new)) }
    ensures never_falls { K.faults sink.old ≤ K.faults sink.new }
{
    match player.typed(mv) {
        Ok(()) => go_on(player, sink),
        Err(_) => {
            put_all(sink, b"illegal\n")?;
            Ok(None)
        }
    }
}

/// Handles one line.
pub(crate) fn reply<P: Player, K: Sink>(
    player: &mut P,
    line: &[u8],
    sink: &mut K,
) -> Result<Option<Ending>, Failed>
    requires due { P.rules.Stands (P.seen player.old) GameState.LineDue }
    ensures comes { IsTurnMade (OfLine P.rules (P.seen player.old) line.now) result (P.seen player.new) (K.written sink.old) (K.written sink.new) }
    ensures failed { OnErr result (HasRisen (K.faults sink.old) (K.faults sink.new)) }
    ensures never_falls { K.faults sink.old ≤ K.faults sink.new }
{
    match read_move(line) {
        Ok(Typed::Quit) => Ok(Some(Ending::Quit)),
        Ok(Typed::Move(mv)) => make(player, mv, sink),
        Err(_) => {
            put_all(sink, b"unreadable\n")?;
            Ok(None)
        }
    }
}
