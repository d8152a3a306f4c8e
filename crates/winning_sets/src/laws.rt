//! Laws of the meaning of a plan's sets. Each is the contract of a function that does nothing.

ghost use Rattle.winning_sets.specs.KeptByLoser.{KeptAreOfGame, KeptIsWon};
ghost use Rattle.winning_sets.specs.PlanMeans.{FirstIsValue, ForwardIsReach, KeepsIsKept, MovesAreCounted, NoneIsKeptLast, PlanIsKept, TablesAreDecided};

/// States that the levels that a plan computes forward are the reached positions, ply by ply and mask by mask.
pub fn forward_is_reach()
    ensures { ForwardIsReach }
{}

/// States that the levels that a plan gives are the kept positions, ply by ply and mask by mask, if each set is known
/// to contain or not to contain each tuple.
pub fn plan_is_kept()
    ensures { PlanIsKept }
{}

/// States how many moves the winner has left at a ply: he makes every second move, and the first one if it is his turn
/// at the start.
pub fn moves_are_counted()
    ensures { MovesAreCounted }
{}

/// States that nothing is kept at the last ply, where it is the winner's turn and he has no move left.
pub fn none_is_kept_last()
    ensures { NoneIsKeptLast }
{}

/// States that the winner mates in time if and only if the starting position is in the plan's first set.
pub fn first_is_value()
    ensures { FirstIsValue }
{}

/// States that a position of the game is in the kept set of its mask if and only if it is kept.
pub fn keeps_is_kept()
    ensures { KeepsIsKept }
{}

/// States that an automaton that decides a set of integers is known to accept or not to accept each tuple.
pub fn tables_are_decided()
    ensures { TablesAreDecided }
{}

/// States that the positions kept at the plies of the loser are sound, and that it is the loser's turn.
pub fn kept_are_of_game()
    ensures { KeptAreOfGame }
{}

/// States that the positions kept at the plies of the loser are won if the winner mates in time.
pub fn kept_is_won()
    ensures { KeptIsWon }
{}
