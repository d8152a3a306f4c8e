//! The situation after the moves of a path.

ghost use Rattle.line_formula.specs.Small.{IsScene};

use crate::leg::Leg;
use game_rules::{Man, Side};

/// Men on their first squares, and the moves of the path, last one first.
#[derive(Clone, Copy)]
pub struct Scene<'a> {
    pub men: &'a [Man],
    pub legs: &'a [Leg],
    ghost is: { IsScene men.now legs.now },
}

/// The men of a side in a mask: bit `i - 1` is 1 if and only if man `i` is live.
#[derive(Clone, Copy)]
pub struct Force {
    pub mask: u32,
    pub side: Side,
}
