//! Texts, problems and tasks.

ghost use Rattle.std.specs.Prelude.{◌≡◌};

use chess_game::{Position, Side};
use chess_text::Draft;
use limits::Budget;

/// A complete text: its contents and its number of lines.
#[derive(Drop)]
pub struct WholeText {
    pub draft: Draft,
    pub lines: u32,
}

/// The problem that a position text states: a position and its winner, and the number of lines of the text.
#[derive(Clone, Copy)]
pub struct Problem {
    pub position: Position,
    pub winner: Side,
    pub lines: u32,
}

impl Problem {
    /// Returns the task of mating within `moves` moves, or of finding the least number up to `moves`, with this budget
    /// for each plan.
    pub fn task(self, moves: u8, budget: Budget) -> Task
        ensures { result ≡ record { problem = self; moves = moves; budget = budget } }
    {
        Task {
            problem: self,
            moves,
            budget,
        }
    }
}

/// A problem with the number of moves, or the greatest number, and the budget of each plan.
#[derive(Clone, Copy)]
pub struct Task {
    pub problem: Problem,
    pub moves: u8,
    pub budget: Budget,
}

/// The name of a strategy file, and the budget of the plan that checks its claim.
#[derive(Clone, Copy)]
pub struct FileTask<'a> {
    pub name: &'a str,
    pub budget: Budget,
}
