//! Laws of a run. Each is the contract of a function that does nothing. They are about the relation in the contract of
//! `run`.

ghost use Rattle.desk_text.specs.TextLaws.{TextIsRead};
ghost use Rattle.mate_desk.specs.Faultless.{ExactWhereNoneFails};
ghost use Rattle.mate_desk.specs.Laws.{AnswersExactly, CheckedAfterKeep, CrowdAgrees, CrowdDecides, CrowdWrites, DecideEnds, DecidesExactly, DecideWrites, Defends, DefendWrites, DescribesExactly, FaultsAreCounted, FirstWrites, LeastWrites, MemoryLast, MigrateCarries, NoShelfFault, OneReport, PlayKeeps, PlayWrites, ResumeKeeps, UsageExactly};

/// States what `decide` writes. A run that is done, on the text of a sound position and whatever follows it, writes
/// `mate in n` if and only if the winner that the text names mates within n moves of his own, whatever the replies on
/// the whole board, and `no mate in n` if and only if he does not.
pub fn decide_writes()
    ensures { DecideWrites }
{}

/// States what `least` writes. A run that is done, on the text of a sound position and whatever follows it, writes the
/// least number of moves, up to its limit, within which the winner that the text names mates, or that there is none.
pub fn least_writes()
    ensures { LeastWrites }
{}

/// States what `first` writes. A run that is done, on the text of a sound position and whatever follows it, writes a
/// line for a ray of a man if and only if a move along it mates within n moves of the winner's own, whatever the replies
/// on the whole board. The line says the least distance of such a move to a square of 64 bits, if there is one, and
/// whether only one move along the ray mates in time.
pub fn first_writes()
    ensures { FirstWrites }
{}

/// States that the text of a position and its winner, whatever follows it, is read as that position and winner.
pub fn text_is_read()
    ensures { TextIsRead }
{}

/// States that a run has the status of a usage error if and only if the arguments are not a command.
pub fn usage_exactly()
    ensures { UsageExactly }
{}

/// States that memory runs out only if the arguments and the bytes taken say that it may; and that, if the source
/// exposed the text of a position, that position is sound and the command allocates for it.
pub fn memory_last()
    ensures { MemoryLast }
{}

/// States that a run of a command that uses no file never has the status of a fault of the shelf.
pub fn no_shelf_fault()
    ensures { NoShelfFault }
{}

/// States that a run has the status of a fault only if the count of faults of its source, its sink or its shelf has
/// risen.
pub fn faults_are_counted()
    ensures { FaultsAreCounted }
{}

/// States that two reports of one input are equal.
pub fn reports_once()
    ensures { OneReport }
{}

/// States what `decide` reports for the text of a sound position: `mate in n` if and only if its winner mates within n
/// moves of his own, whatever the replies on the whole board, and `no mate in n` if and only if he does not; or the
/// first step that exceeds the budget.
pub fn decides_exactly()
    ensures { DecidesExactly }
{}

/// States what `describe` reports for the text of a sound position: a line for each ray of a man along which a move
/// mates within n moves of the winner's own, whatever the replies on the whole board; or the first step that exceeds
/// the budget. If the line of a ray lists distances, it lists a positive distance t if and only if the move by t steps
/// along the ray mates within n moves.
pub fn describes_exactly()
    ensures { DescribesExactly }
{}

/// States what `crowd` reports for the text of a sound crowd: `mate in n` if and only if its winner mates within n
/// moves of his own, whatever the replies on the whole board, and `no mate in n` if and only if he does not; or the
/// first step that exceeds the budget.
pub fn crowd_decides()
    ensures { CrowdDecides }
{}

/// States what `crowd` writes. A run that is done, on the text of a crowd and whatever follows it, writes `mate in n`
/// if and only if the winner that the text names mates within n moves of his own, whatever the replies on the whole
/// board, and `no mate in n` if and only if he does not.
pub fn crowd_writes()
    ensures { CrowdWrites }
{}

/// States that `decide` and `crowd` report the same line for the same number of moves if both are done, one on the
/// position text and the other on the crowd text of the same position and winner.
pub fn crowd_agrees()
    ensures { CrowdAgrees }
{}

/// States what `play` reports for the text of a sound position whose winner mates within n moves of his own: a game
/// with the lines after the text, or the first step that exceeds the budget. In the game each move of the winner is
/// legal; he makes at most n moves, and after his k-th move, whatever the replies, the loser is mated within n - k.
pub fn play_keeps()
    ensures { PlayKeeps }
{}

/// States what `defend` reports for the text of a sound position whose winner does not mate within n moves of his own:
/// a game with the lines after the text. In it each move of the loser is legal. Whatever is typed, after each of his
/// moves and at the end the winner has made at most n moves and does not mate within the moves left, and the loser is
/// not mated. Otherwise it reports that the winner mates, or the first step that exceeds the budget.
pub fn defends()
    ensures { Defends }
{}

/// States what `resume` reports for a file whose claim keeps all rules, no matter who made it: a game with the lines.
/// In it each move of the winner is legal, and after his k-th move, whatever the replies, the loser is mated within n -
/// k.
pub fn resume_keeps()
    ensures { ResumeKeeps }
{}

/// States that after a run of `keep` that wrote `mate in n`, `check` of that name reports `mate in n`, or names the
/// first step that exceeds its budget. This is true as long as the file of the name is the same, whatever the other
/// files are.
pub fn checked_after_keep()
    ensures { CheckedAfterKeep }
{}

/// States that after a run of `migrate` that is done, the file of the new name is read as a claim of the same sets as
/// the file of the old name was, so that both are checked alike. Each file whose name is not the new one is unchanged.
pub fn migrate_carries()
    ensures { MigrateCarries }
{}

/// States what `arith` reports for a line that is a formula: that it is true if and only if it is true over all
/// integers, and `false` if and only if it is not; or the first step that exceeds the budget. A number in the report is
/// the one nearest to 0 of those with which the formula is true.
pub fn answers_exactly()
    ensures { AnswersExactly }
{}

/// States what `play` writes. A run on the text of a sound position that does not run out of memory writes the report
/// of the game with the lines after the text: the whole of it, unless the sink failed. If its source failed, these are
/// the lines taken, and the game is followed by the line for that fault.
pub fn play_writes()
    ensures { PlayWrites }
{}

/// States what `defend` writes. A run on the text of a sound position that does not run out of memory writes the report
/// of the game with the lines after the text: the whole of it, unless the sink failed. If its source failed, these are
/// the lines taken, and the game is followed by the line for that fault.
pub fn defend_writes()
    ensures { DefendWrites }
{}

/// States how a run of `decide` on the text of a sound position ends: it is done, or a step exceeds the budget, or a
/// fault was counted, or memory ran out.
pub fn decide_ends()
    ensures { DecideEnds }
{}

/// States that a run over ports that expose everything and do not fail has no status of a fault, and that nothing of it
/// is cut: it did what is reported of the whole input, or memory ran out for its command. A port that always counts 0
/// faults, like a slice or files in memory, does not fail.
pub fn exact_where_none_fails()
    ensures { ExactWhereNoneFails }
{}
