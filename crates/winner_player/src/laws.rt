//! Laws of the definitions. Each is the contract of a function that does nothing.
ghost use Rattle.std.specs.Prelude.{◌≡◌};
ghost use Rattle.winner_player.specs.Laws.{MatedInTime, MatedIsMate, ReportIsLost, ReportIsPlayed};
ghost use Rattle.move_choice.specs.Squares.{all_squares};

/// States that the games of a report are those of a session in which the moves of its lines are given: each of the
/// winner's moves is his pick, and legal.
pub fn report_is_played()
    ensures { ReportIsPlayed }
{}

/// States that in a report of a game of n moves, from its start, the loser is mated within n - k moves after the
/// winner's k-th move, whatever the lines are.
pub fn report_is_lost()
    ensures { ReportIsLost }
{}

/// States that the winner makes at most n moves in such a report, and fewer if it does not end by mate.
pub fn mated_in_time()
    ensures { MatedInTime }
{}

/// States that in a report that ends by mate the loser is mated after the winner's last move, or at the start if the
/// winner made none.
pub fn mated_is_mate()
    ensures { MatedIsMate }
{}

/// States that the squares of a report are those of `Frame::whole`.
pub fn all_squares_are_the_whole_frame()
    ensures { all_squares ≡ record { x_low = i64.MIN; x_high = i64.MAX; y_low = i64.MIN; y_high = i64.MAX } }
{}
