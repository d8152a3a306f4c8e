//! Laws of the definitions. Each is the contract of a function that does nothing.
ghost use Rattle.winner_session.specs.Game.{AllLost, OneWinPick, WholeGameIsLost};

/// States that after each move of the winner the loser is mated within the moves left, whatever replies are given.
pub fn all_lost()
    ensures { AllLost }
{}

/// States that in a game of n moves the loser is mated within n - k moves after the winner's k-th move, and that the
/// winner makes at most n moves.
pub fn whole_game_is_lost()
    ensures { WholeGameIsLost }
{}

/// States that the winner has at most one pick in each game, and not both a pick and none.
pub fn one_pick()
    ensures { OneWinPick }
{}
