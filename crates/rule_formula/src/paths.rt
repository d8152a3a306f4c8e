//! How men move along rays, and over which squares.

ghost use Rattle.rule_formula.specs.Paths.{IsJourney, IsPassedBy, IsStretch};

use crate::atoms::Extent;
use crate::seats::Seat;
use game_rules::Ray;

/// A man's path along a ray, and the man that he takes at its end, or 0.
#[derive(Clone, Copy)]
pub(crate) struct Journey {
    pub(crate) man: u8,
    pub(crate) ray: Ray,
    pub(crate) taken: u8,
    ghost is: { IsJourney man ray taken },
}

/// The squares of a ray from one seat (exclusive) to another.
#[derive(Clone, Copy)]
pub(crate) struct Stretch {
    pub(crate) ray: Ray,
    pub(crate) from: Seat,
    pub(crate) to: Seat,
    pub(crate) extent: Extent,
    ghost is: { IsStretch ray from to },
}

/// A stretch, and the two men that may stand on it.
#[derive(Clone, Copy)]
pub(crate) struct Path {
    pub(crate) stretch: Stretch,
    pub(crate) first: u8,
    pub(crate) second: u8,
    ghost passed: { IsPassedBy stretch.from stretch.to first second },
}
