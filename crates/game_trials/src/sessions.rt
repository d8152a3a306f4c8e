//! Rows that play games: the winner's moves come from a session, and the loser's from the row.

ghost use Rattle.std.specs.Prelude.{◌≤◌, ◌≡◌};
ghost use Rattle.game_rules.specs.Game.{Sound};

use crate::positions::{frame, illegal_words, move_of, side};
use chess_game::{Frame, Position, Side};
use chess_text::position_bytes;
use limits::MOST_MOVES;
use std::alloc::Global;
use trial_rows::{Row, RowError, RowInterpreter, answer_steps};
use winner_session::{Played, Session, TooWide};
use winning_sets::{SolveError, Solved, solve};

/// The session of a position that is won.
fn session_of(alloc: Global, solved: Solved, frame: Frame) -> Result<Session, RowError> {
    if !solved.verdict() {
        return Err(RowError::Condition);
    }
    match Session::begin(alloc, solved, frame) {
        Ok(session) => Ok(session),
        Err(_) => Err(RowError::Memory),
    }
}

/// Parses `WINNER MOVES BUDGET FRAME`: the session of the position, if the budget suffices.
fn session(position: &Position, row: &mut Row) -> Result<Session, RowError>
    requires { Sound position.now }
{
    let winner = side(row)?;
    let moves = row.number::<u8>()?;
    let budget = row.budget()?;
    let frame = frame(row)?;
    if moves > MOST_MOVES {
        return Err(RowError::Condition);
    }
    match solve(row.alloc, position, winner, moves, budget) {
        Ok(solved) => session_of(row.alloc, solved, frame),
        Err(SolveError::Over(_)) => Err(RowError::Over),
        Err(SolveError::Memory) => Err(RowError::Memory),
    }
}

/// Writes the winner's move, its ray and distance, and whether it mates.
fn write_played(row: &mut Row, played: &Played) {
    row.write_number(played.mv.man);
    row.write_labelled(" ", played.mv.x);
    row.write_labelled(" ", played.mv.y);
    row.write_labelled(" ray ", played.ray);
    row.write_labelled(" distance ", played.distance);
    row.write(" mated ");
    row.write_truth(played.mated);
}

/// `win`: the winner's move, or `wide`.
fn win_step(session: &mut Session, row: &mut Row) -> Result<(), RowError> {
    if session.position().turn() != session.winner() {
        return Err(RowError::Condition);
    }
    match session.win_move() {
        Ok(played) => write_played(row, &played),
        Err(TooWide) => row.write("wide"),
    }
    Ok(())
}

/// `other M X Y`: whether the other side's move is made, or why not.
fn other_step(session: &mut Session, row: &mut Row) -> Result<(), RowError> {
    let mv = move_of(row)?;
    if session.position().turn() != session.winner().other() {
        return Err(RowError::Condition);
    }
    row.write(match session.other_move(mv) {
        Ok(()) => "made",
        Err(why) => illegal_words(why),
    });
    Ok(())
}

/// Writes the lines of a position's text without the first and the last, parted by commas.
fn write_position(row: &mut Row, position: &Position) -> Result<(), RowError> {
    let text = position_bytes(row.alloc, position, Side::White)?;
    let mut lines = 0u8;
    for byte in text.as_slice() {
        if *byte == b'\n' {
            lines = lines.saturating_add(1);
            if lines > 1 && lines < 2 + position.count() {
                row.write(",");
            }
        } else if lines > 0 && lines < 2 + position.count() {
            row.write_mark(*byte as char);
        }
    }
    Ok(())
}

/// A game that a row plays.
struct Game {
    session: Session,
}

impl Drop for Game {
    fn drop(self) {
        let Game { session: _ } = self;
    }
}

impl RowInterpreter for Game {
    fn answer(&mut self, kind: &str, row: &mut Row) -> Result<(), RowError> {
        match kind {
            "win" => return win_step(&mut self.session, row),
            "other" => return other_step(&mut self.session, row),
            "position" => return write_position(row, &self.session.position()),
            "left" => row.write_number(self.session.moves_left()),
            "over" => row.write_truth(self.session.over()),
            _ => return Err(RowError::Word),
        }
        Ok(())
    }
}

/// Runs `game NAME WINNER MOVES BUDGET FRAME STEP/STEP ..`: the results of the steps, separated by `/`.
pub fn game_row(position: &Position, row: &mut Row) -> Result<(), RowError>
    requires { Sound position.now }
{
    let session = session(position, row)?;
    answer_steps(&mut Game { session }, row, '/')
}
