//! Laws of captured men. Each is the contract of a function that does nothing.

ghost use Rattle.stock_laws.specs.Laws.{CapturedKeepsValue, LiveKeepsSound, LiveKeepsValue};

/// States that two positions with the same live men in the same order, and the same side to move, have the same value.
pub fn captured_men_change_nothing()
    ensures { CapturedKeepsValue }
{}

/// States that a position has the value of the position of its live men alone.
pub fn live_men_keep_the_value()
    ensures { LiveKeepsValue }
{}

/// States that the position of the live men alone is sound if the position is, and that the loser keeps his king.
pub fn live_men_keep_soundness()
    ensures { LiveKeepsSound }
{}
