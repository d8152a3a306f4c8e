//! Decides whether the winner of a problem mates within n moves.
//!
//! All commands with a plan use it. It also has the line of the verdict and the line that names a step that exceeds the
//! budget. `specs/Verdict` defines what is reported of a problem, and `specs/StepLines` how a step is named.
#![tactic(auto)]

mod problem_solver;
mod step_line;
mod verdict;

pub use problem_solver::ProblemSolver;
pub use step_line::{budget_line, print_error};
pub use verdict::{number_line, verdict_line};
