//! Laws of positions that stand for stocks. Each is the contract of a function that does nothing.

ghost use Rattle.stock_start.specs.Start.{StartStands};

/// States that the position that stands for a stock has its kings, if the stock has those that a table needs, and that
/// all of its men are live.
pub fn starts_stand_for_stocks()
    ensures { StartStands }
{}
