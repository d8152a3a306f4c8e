//! Laws of the definitions. Each is the contract of a function that does nothing.
ghost use Rattle.play_loop.specs.Laws.{OneReport, SomeReport};
ghost use Rattle.loser_player.specs.Laws.{ReportIsSaved};
ghost use Rattle.loser_player.specs.LoserRules.{IsOfDefence, loser_rules};

/// States that a game and its lines have at most one report.
pub fn one_report()
    ensures { OneReport loser_rules }
{}

/// States that each game of a defence has a report, whatever the lines are.
pub fn some_report()
    ensures { SomeReport loser_rules IsOfDefence }
{}

/// States that a report keeps the loser safe if the winner does not mate within n moves, whatever the lines are. After
/// each move of the loser and at the end, legal moves have led to the position, the winner has made at most n moves, he
/// does not mate within the moves left, and the loser is not mated.
pub fn report_is_saved()
    ensures { ReportIsSaved }
{}
