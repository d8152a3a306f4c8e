//! The laws. A law with a type parameter speaks of the set of positions of any type that has one.

ghost use Rattle.game_forever.specs.Laws.{CanBeCentred, CentreCovers, CentreIsEnough, CentreStops, CoverIsDecided, CoverIsLost, EscapeIsNeverLost, ExchangeKeepsForcedMate, ForcedIsWon, LossesStop, LostIsTable, MateIsForced, MovedFalls, MovedIsMovable, MovedIsRefuge, MovedIsTable, RankedIsWon, RankedIsWonTo, ReflectionKeepsForcedMate, RefugeIsNeverMate, RefugeIsNeverWon, ShiftKeepsForcedMate, StockIsClosed, StoppedIsDecided, StoppedIsLost, TableIsLost, TableIsWon, UnwonIsRefuge, WinForcesMate, WinIsForced, WinsStop};

use crate::sets::{PositionSet, PositionSets};

/// States that a side forces mate if and only if it does so after a translation or a reflection of the board, and that with
/// the colours exchanged the other side does.
pub fn maps_of_the_board_keep_forced_mate()
    ensures shift { ShiftKeepsForcedMate }
    ensures reflection { ReflectionKeepsForcedMate }
    ensures exchange { ExchangeKeepsForcedMate }
{}

/// States that legal moves do not leave the sound positions of a stock.
pub fn stocks_are_closed()
    ensures { StockIsClosed }
{}

/// States that in a closed set no number of moves wins or loses more than n, if n + 1 moves win nothing more than n.
pub fn wins_stop<A: PositionSet>()
    ensures wins { WinsStop A.has }
    ensures losses { LossesStop A.has }
{}

/// States that the positions of a table are lost within their numbers of moves, and that positions with a legal move into it
/// are won.
pub fn tables_are_lost<L: PositionSets>()
    ensures lost { TableIsLost L.has }
    ensures won { TableIsWon L.has }
{}

/// States that the lost positions are a table.
pub fn lost_positions_are_a_table()
    ensures { LostIsTable }
{}

/// States that the winner mates from no position of a refuge, neither within any number of moves nor without a bound.
pub fn refuges_are_never_won<X: PositionSet>()
    ensures mate { RefugeIsNeverMate X.has }
    ensures wins { RefugeIsNeverWon X.has }
    ensures losses { EscapeIsNeverLost X.has }
{}

/// States that to win within n moves is to force mate within n moves.
pub fn wins_are_forced()
    ensures { WinIsForced }
{}

/// States that a side that forces a won position wins.
pub fn forced_positions_are_won<T: PositionSet>()
    ensures { ForcedIsWon T.has }
{}

/// States that a side that forces smaller and smaller ranks mates, within a number of moves that the rank determines.
pub fn falling_ranks_are_won<A: PositionSet>()
    ensures to_mate { RankedIsWon A.has }
    ensures to_wins { RankedIsWonTo A.has }
{}

/// States that the loser is lost in each position of a closed set that is not stalemate, if the winner mates from each with
/// the winner to move.
pub fn covered_sets_are_lost<A: PositionSet>()
    ensures { CoverIsLost A.has }
{}

/// States that in a closed set the winner forces mate, however long it takes, from exactly the positions that are won within
/// n moves, if n + 1 moves win nothing more than n.
pub fn stopped_sets_are_decided<A: PositionSet>()
    ensures wins { StoppedIsDecided A.has }
    ensures losses { StoppedIsLost A.has }
{}

/// States from which positions the winner forces mate if each position is won or in a refuge.
pub fn covered_sets_are_decided<A: PositionSet, W: PositionSet, X: PositionSet>()
    ensures { CoverIsDecided A.has W.has X.has }
{}

/// States that a side that wins within some number of moves forces mate, and that to force mate is to have a move after
/// which it is forced.
pub fn wins_force_mate()
    ensures wins { WinForcesMate }
    ensures moves { MateIsForced }
{}

/// States that the positions that are not won within n moves are a refuge, if n + 1 moves win nothing more than n.
pub fn unwon_positions_are_a_refuge<A: PositionSet>()
    ensures { UnwonIsRefuge A.has }
{}

/// States that each position of a stock has a translation with the king of one side on 0 0.
pub fn positions_can_be_centred()
    ensures { CanBeCentred }
{}

/// States that a property that translations keep need be shown of such positions only.
pub fn centred_positions_are_enough<P: PositionSet>()
    ensures { CentreIsEnough P.has }
{}

/// States that it is enough that one more move wins nothing more from such positions.
pub fn centred_positions_stop()
    ensures { CentreStops }
{}

/// States that two sets that cover such positions cover all positions up to translation.
pub fn centred_positions_cover<W: PositionSet, X: PositionSet>()
    ensures { CentreCovers W.has X.has }
{}

/// States that translations keep the positions with a translation in a set.
pub fn moved_sets_are_movable<X: PositionSet>()
    ensures { MovedIsMovable X.has }
{}

/// States that a set is a refuge up to translation if it satisfies the rules of one up to translation.
pub fn moved_refuges_are_refuges<X: PositionSet>()
    ensures { MovedIsRefuge X.has }
{}

/// States the same of a table.
pub fn moved_tables_are_tables<L: PositionSets>()
    ensures { MovedIsTable L.has }
{}

/// States the same of ranks that fall.
pub fn moved_ranks_fall<A: PositionSet>()
    ensures { MovedFalls A.has }
{}
