//! Rows that solve positions for one number of moves after another, and query the sets.

ghost use Rattle.std.specs.Prelude.{◌≤◌};
ghost use Rattle.game_rules.specs.Game.{Sound};

use crate::positions::{side, side_letter};
use auto_core::Auto;
use auto_reduce::sign_stable;
use chess_game::Position;
use limits::MOST_MOVES;
use trial_rows::{Named, Row, RowError, RowInterpreter, answer_steps};
use winning_sets::{SolveError, Solved, Solver};

/// A solver of a row, what it has solved last, and the positions that steps may name.
struct Bench<'a> {
    positions: &'a Named<Position>,
    solver: Solver,
    last: Option<Solved>,
}

impl Drop for Bench<'_> {
    fn drop(self) {
        let Bench {
            positions: _,
            solver: _,
            last: _,
        } = self;
    }
}

impl<'a> Bench<'a> {
    /// Returns whether the winner mates within this number of moves.
    fn solve(&mut self, moves: u8) -> Result<bool, RowError>
        requires { moves ≤ MOST_MOVES }
    {
        match self.solver.solve(moves) {
            Ok(solved) => {
                let is_mate = solved.verdict();
                self.last = Some(solved);
                Ok(is_mate)
            }
            Err(SolveError::Over(_)) => Err(RowError::Over),
            Err(SolveError::Memory) => Err(RowError::Memory),
        }
    }

    fn solved(&self) -> Result<&Solved, RowError> {
        self.last.as_ref().ok_or(RowError::Condition)
    }
}

/// Runs `solve MOVES`: whether the winner mates within this number of moves.
fn solve_step(bench: &mut Bench, row: &mut Row) -> Result<(), RowError> {
    let moves = row.number::<u8>()?;
    if moves > MOST_MOVES {
        return Err(RowError::Condition);
    }
    let is_mate = bench.solve(moves)?;
    row.write(if is_mate { "mate" } else { "no mate" });
    Ok(())
}

/// Writes whether the tuple of the next field is in a set, or that there is no set.
fn write_is_in(row: &mut Row, set: Option<&Auto>) -> Result<(), RowError> {
    let values = row.numbers::<i64>()?;
    let Some(set) = set else {
        row.write("none");
        return Ok(());
    };
    if values.len() != set.tracks().len() {
        return Err(RowError::Condition);
    }
    if !sign_stable(row.alloc, set)? {
        return Err(RowError::Condition);
    }
    row.write_truth(set.member(values.as_slice()));
    Ok(())
}

/// `KIND PLY MASK TUPLE`: whether a tuple is in the set of this kind.
fn set_step(bench: &Bench, kind: &str, row: &mut Row) -> Result<(), RowError> {
    let (ply, mask) = row.two_numbers::<u8, u8>()?;
    let set = match kind {
        "reach" => bench.solver.reach(ply, mask),
        "reached" => bench.solved()?.reach(ply, mask),
        _ => bench.solved()?.set(ply, mask),
    };
    write_is_in(row, set)
}

/// Writes a property of the solved position: `masks`, `most`, `last`, `moves`, `winner`.
fn write_solved(row: &mut Row, solved: &Solved, word: &str) -> Result<(), RowError> {
    match word {
        "masks" => row.write_numbers(solved.masks(), ','),
        "most" => row.write_number(solved.most_states()),
        "last" => row.write_number(solved.last_ply()),
        "moves" => row.write_number(solved.moves()),
        "winner" => row.write_mark(side_letter(solved.winner())),
        _ => return Err(RowError::Word),
    }
    Ok(())
}

/// `keeps PLY NAME`: whether the solved position keeps the position at the ply.
fn keeps_step(bench: &Bench, row: &mut Row) -> Result<(), RowError> {
    let solved = bench.solved()?;
    let ply = row.number::<u8>()?;
    let position = bench.positions.next(row)?;
    row.write_truth(solved.keeps(ply, position));
    Ok(())
}

impl<'a> RowInterpreter for Bench<'a> {
    fn answer(&mut self, kind: &str, row: &mut Row) -> Result<(), RowError> {
        match kind {
            "solve" => solve_step(self, row),
            "plies" => {
                row.write_number(self.solver.plies());
                Ok(())
            }
            "reach" | "reached" | "kept" => set_step(self, kind, row),
            "keeps" => keeps_step(self, row),
            word => write_solved(row, self.solved()?, word),
        }
    }
}

/// Runs `solver NAME WINNER BUDGET STEP/STEP ..`: the results of the steps.
pub fn solver_row(
    positions: &Named<Position>,
    position: &Position,
    row: &mut Row,
) -> Result<(), RowError>
    requires { Sound position.now }
{
    let winner = side(row)?;
    let budget = row.budget()?;
    let mut bench = Bench {
        positions,
        solver: Solver::new(row.alloc, position, winner, budget),
        last: None,
    };
    answer_steps(&mut bench, row, ' ')
}
