//! Laws of the plan's sets. Each is the contract of a function that does nothing.
ghost use Rattle.line_plan.specs.Laws.{KeptIsWon, PlanDecides, PlanEndsOnce, ReachIsLegal};

/// States that one step of the plan keeps sets legal: if the set of a path of fewer than 16 moves has exactly the
/// distances at which its moves are legal, so has the set of the path with one more option.
pub fn reach_is_legal()
    ensures { ReachIsLegal }
{}

/// States that the set kept after a path has exactly the distances at which its moves are legal and the winner then
/// mates with the moves left. Path and moves left are 16 moves at most.
pub fn kept_is_won()
    ensures { KeptIsWon }
{}

/// States that the verdict of the plan is true if and only if the winner mates within the number of moves, for at most
/// 7 moves.
pub fn plan_decides()
    ensures { PlanDecides }
{}

/// States that within a budget the plan has one end or stops at one step, and never both.
pub fn plan_ends_once()
    ensures { PlanEndsOnce }
{}
