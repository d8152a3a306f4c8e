//! Solves a problem for one number of moves after another.

ghost use Rattle.std.specs.Prelude.{◌≡◌, ◌↔◌, ◌≤◌, Err, IsTrue, IfOk, IfSome, OnOk, is_some};
ghost use Rattle.game_rules.specs.Game.{Sound, Value};
ghost use Rattle.winning_sets.specs.Solve.{IsOf};
ghost use Rattle.desk_verdict.specs.Verdict.{ExceedsAt, FitsBudget, HasNothingToPlay, IfOver};

use desk_text::Problem;
use limits::{Budget, MOST_MOVES};
use std::alloc::Global;
use winning_sets::{SolveError, Solved, Solver};

/// A solver of one problem for one number of moves after another. Each of them has the budget; reached sets are
/// computed once.
#[derive(Drop)]
pub struct ProblemSolver {
    pub problem: Problem,
    pub budget: Budget,
    solver: Solver,
    ghost of_position: { solver.position ≡ problem.position },
    ghost of_winner: { solver.winner ≡ problem.winner },
    ghost within: { solver.budget ≡ budget },
}

impl ProblemSolver {
    /// Creates a solver of the problem. Each step has the budget.
    pub fn new(alloc: Global, problem: &Problem, budget: Budget) -> ProblemSolver
        requires sound { Sound problem.now.position }
        ensures problem { result.problem ≡ problem.now }
        ensures budget { result.budget ≡ budget }
    {
        ProblemSolver {
            problem: *problem,
            budget,
            solver: Solver::new(alloc, &problem.position, problem.winner, budget),
        }
    }

    /// Returns the solved position if the winner mates within this number of moves. If it is his turn and he has no
    /// moves left, nothing is computed. The error is the first step that exceeds the budget, or that an allocation
    /// failed.
    pub fn mates_within(&mut self, moves: u8) -> Result<Option<Solved>, SolveError>
        requires moves { moves ≤ MOST_MOVES }
        ensures won { IfOk result (λ found. IsTrue (is_some found) ↔ Value self.old.problem.winner moves self.old.problem.position) }
        ensures found { IfOk result (λ found. IfSome found (IsOf self.old.problem.position self.old.problem.winner moves)) }
        ensures fits { OnOk result (FitsBudget self.old.problem self.old.budget moves) }
        ensures step { IfOver result (ExceedsAt self.old.problem self.old.budget moves) }
        ensures memory { result ≡ Err SolveError.Memory → ¬ HasNothingToPlay moves self.old.problem }
        ensures problem { self.new.problem ≡ self.old.problem }
        ensures budget { self.new.budget ≡ self.old.budget }
    {
        if has_nothing_to_play(&self.problem, moves) {
            return Ok(None);
        }
        let solved = self.solver.solve(moves)?;
        if solved.verdict() {
            Ok(Some(solved))
        } else {
            Ok(None)
        }
    }
}

/// Whether the winner is to move and has no move of his own.
fn has_nothing_to_play(problem: &Problem, moves: u8) -> bool
    ensures { IsTrue result ↔ HasNothingToPlay moves problem.now }
{
    moves == 0 && problem.position.turn() == problem.winner
}
