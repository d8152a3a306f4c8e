//! What the sets of a table are: laws of the definitions, each the contract of a function without a body.

ghost use Rattle.table_plan.specs.Once.{TablesEndOnce};
ghost use Rattle.table_plan.specs.TableMeans.{MovedIsMoved, SoundStandsForStock, TableDecides, TableIsForEver, TableIsWon, TableWinsAll, UniverseIsAll};

/// States that a sound position of at most eight men, all live, in which the loser has a king, stands for its stock.
pub fn sound_stands_for_stock()
    ensures { SoundStandsForStock }
{}

/// States that the first sets of a table have all positions of the stock with the loser's king on 0 0.
pub fn universe_is_all()
    ensures { UniverseIsAll }
{}

/// States that a moved set has the positions of the set, each moved as a whole.
pub fn moved_is_moved()
    ensures { MovedIsMoved }
{}

/// States that each row of a table has what is won, and what is lost, within its number of moves.
pub fn table_is_won()
    ensures { TableIsWon }
{}

/// States that a row decides, for each position of the stock on any squares, whether the winner mates within its number of
/// moves.
pub fn table_decides()
    ensures { TableDecides }
{}

/// States that to force mate, however long it takes, is to win within the moves of a row, if the next row wins no more.
pub fn table_is_for_ever()
    ensures { TableIsForEver }
{}

/// States that the winner mates from everywhere within the moves of a row that wins all positions.
pub fn table_wins_all()
    ensures { TableWinsAll }
{}

/// States that a table has one end, or one first step that exceeds the budget.
pub fn tables_end_once()
    ensures { TablesEndOnce }
{}
