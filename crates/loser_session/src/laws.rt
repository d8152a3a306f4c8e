//! Laws of the definitions. Each is the contract of a function that does nothing.
ghost use Rattle.loser_session.specs.FirstSteps.{FirstStepIsFree, MoveOrNone};
ghost use Rattle.loser_session.specs.Laws.{MovesAreLeft, NeverMated, OneDefencePick, OneStand, PlanFits, SomeStand, StartIsDefence};

/// States that a man who may go along a ray may go its first step, if the side to move is not in check.
pub fn first_step_is_free()
    ensures { FirstStepIsFree }
{}

/// States that each sound position has a legal move, or has none.
pub fn move_or_none()
    ensures { MoveOrNone }
{}

/// States that the loser is not mated after at most n moves of the winner, whatever moves are given.
pub fn never_mated()
    ensures { NeverMated }
{}

/// States that the start of a game can be defended if the winner does not mate within n moves.
pub fn start_is_defence()
    ensures { StartIsDefence }
{}

/// States that if the loser has a legal move, not every one leads to a won position.
pub fn moves_are_left()
    ensures { MovesAreLeft }
{}

/// States that the loser has at most one pick in each game, and not both a pick and none.
pub fn one_pick()
    ensures { OneDefencePick }
{}

/// States that a game has at most one state.
pub fn one_stand()
    ensures { OneStand }
{}

/// States that a defence has at least one state.
pub fn some_stand()
    ensures { SomeStand }
{}

/// States that the defence of a solved position can be started with the budget with which it was solved.
pub fn plan_fits()
    ensures { PlanFits }
{}
