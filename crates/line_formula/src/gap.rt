//! Comparisons of two men's places.

ghost use Rattle.std.specs.Prelude.{◌≡◌, ◌≤◌, ◌^◌, ◌*◌, ◌+◌, ◌*ℤ◌, ◌-ℤ◌, ◌+ℤ◌, length, unsigned_abs};
ghost use Rattle.line_formula.specs.Atoms.{constant as constant_of, weight as weight_of};
ghost use Rattle.line_formula.specs.Places.{home, step_x, step_y};
ghost use Rattle.line_formula.specs.Rules.{across as across_gap, measure as measure_gap, off_line as off_line_gap, opposite as opposite_gap, upward as upward_gap};
ghost use Rattle.line_formula.specs.Small.{AreNear, AreTwo, IsSmallGap, IsSmallRay};

use crate::leg::Leg;
use crate::men::first_spot;
use game_rules::{Man, Ray};

/// A weighted sum of the distances from one man to another, to the right and upwards.
#[derive(Clone, Copy, PartialEq, Eq)]
pub struct Gap {
    /// The weight of a square to the right.
    pub right: i8,
    /// The weight of a square upwards.
    pub up: i8,
    /// The number of the man at the start.
    pub from: u8,
    /// The number of the man at the end.
    pub to: u8,
}

/// Returns the gap to the right, from the first man to the second.
pub(crate) fn across(from: u8, to: u8) -> Gap
    ensures is { result ≡ across_gap from to }
    ensures small { IsSmallGap result }
{
    Gap {
        right: 1,
        up: 0,
        from,
        to,
    }
}

/// Returns the gap upwards, from the first man to the second.
pub(crate) fn upward(from: u8, to: u8) -> Gap
    ensures is { result ≡ upward_gap from to }
    ensures small { IsSmallGap result }
{
    Gap {
        right: 0,
        up: 1,
        from,
        to,
    }
}

/// Returns a gap that is 0 if the second man is on the line through the first along the ray.
pub(crate) fn off_line(ray: Ray, from: u8, to: u8) -> Gap
    requires { IsSmallRay ray }
    ensures is { result ≡ off_line_gap ray from to }
    ensures small { IsSmallGap result }
{
    Gap {
        right: ray.dy,
        up: -ray.dx,
        from,
        to,
    }
}

/// Returns the number of steps along the ray from the first man to the second, if he is on that line.
pub(crate) fn measure(ray: Ray, from: u8, to: u8) -> Gap
    requires { IsSmallRay ray }
    ensures is { result ≡ measure_gap ray from to }
    ensures small { IsSmallGap result }
{
    if ray.dx.unsigned_abs() == 1 {
        Gap {
            right: ray.dx,
            up: 0,
            from,
            to,
        }
    } else {
        Gap {
            right: 0,
            up: ray.dy,
            from,
            to,
        }
    }
}

/// Returns the negated gap.
pub(crate) fn opposite(gap: Gap) -> Gap
    requires { IsSmallGap gap }
    ensures is { result ≡ opposite_gap gap }
    ensures small { IsSmallGap result }
{
    Gap {
        right: -gap.right,
        up: -gap.up,
        ..gap
    }
}

/// Returns the weight times a number of squares.
fn weighed(weight: i8, squares: i64) -> i64
    requires small { unsigned_abs weight ≤ 2 }
    requires near { unsigned_abs squares ≤ 2 ^ 61 }
    ensures is { result ≡ weight *ℤ squares }
    ensures bound { unsigned_abs result ≤ unsigned_abs weight * 2 ^ 61 }
{
    i64::from(weight) * squares
}

/// Returns the second number minus the first.
fn between(from: i64, to: i64) -> i64
    requires first { unsigned_abs from ≤ 2 ^ 60 }
    requires second { unsigned_abs to ≤ 2 ^ 60 }
    ensures is { result ≡ to -ℤ from }
    ensures bound { unsigned_abs result ≤ 2 ^ 61 }
{
    to - from
}

/// Returns the sum.
fn total(right: i64, up: i64) -> i64
    requires { unsigned_abs right + unsigned_abs up ≤ 3 * 2 ^ 61 }
    ensures { result ≡ right +ℤ up }
{
    right + up
}

/// Returns the gap of the men's first squares.
#[tactic(auto, using(crate::proofs::GapLemmas::gap_sums))]
pub(crate) fn constant(men: &[Man], gap: Gap) -> i64
    requires near { AreNear men.now }
    requires small { IsSmallGap gap }
    requires two { AreTwo men.now gap.from gap.to }
    ensures { result ≡ constant_of (home men.now) gap }
{
    let from = first_spot(men, gap.from);
    let to = first_spot(men, gap.to);
    let across = between(from.x, to.x);
    let upward = between(from.y, to.y);
    let right = weighed(gap.right, across);
    let up = weighed(gap.up, upward);
    total(right, up)
}

/// Returns how far a step of the leg moves the man to the right.
fn right_step(man: u8, leg: Leg) -> i8
    requires { IsSmallRay leg.ray }
    ensures is { result ≡ step_x man leg }
    ensures small { unsigned_abs result ≤ 2 }
{
    if leg.man == man { leg.ray.dx } else { 0 }
}

/// Returns how far a step of the leg moves the man upwards.
fn up_step(man: u8, leg: Leg) -> i8
    requires { IsSmallRay leg.ray }
    ensures is { result ≡ step_y man leg }
    ensures small { unsigned_abs result ≤ 2 }
{
    if leg.man == man { leg.ray.dy } else { 0 }
}

/// Returns the second step minus the first.
fn step_between(from: i8, to: i8) -> i8
    requires first { unsigned_abs from ≤ 2 }
    requires second { unsigned_abs to ≤ 2 }
    ensures is { result ≡ to -ℤ from }
    ensures small { unsigned_abs result ≤ 4 }
{
    to - from
}

/// Returns the weight times a step.
fn step_weighed(weight: i8, step: i8) -> i8
    requires weight { unsigned_abs weight ≤ 2 }
    requires step { unsigned_abs step ≤ 4 }
    ensures is { result ≡ weight *ℤ step }
    ensures small { unsigned_abs result ≤ 8 }
{
    weight * step
}

/// Returns the sum.
fn step_total(right: i8, up: i8) -> i8
    requires first { unsigned_abs right ≤ 8 }
    requires second { unsigned_abs up ≤ 8 }
    ensures is { result ≡ right +ℤ up }
    ensures small { unsigned_abs result ≤ 16 }
{
    right + up
}

/// Returns the change of the gap by a step of the leg.
#[tactic(auto, using(crate::proofs::GapLemmas::gap_sums))]
pub(crate) fn weight(gap: Gap, leg: Leg) -> i8
    requires small { IsSmallGap gap }
    requires ray { IsSmallRay leg.ray }
    ensures is { result ≡ weight_of gap leg }
    ensures bound { unsigned_abs result ≤ 16 }
{
    let from_right = right_step(gap.from, leg);
    let to_right = right_step(gap.to, leg);
    let from_up = up_step(gap.from, leg);
    let to_up = up_step(gap.to, leg);
    let across = step_between(from_right, to_right);
    let upward = step_between(from_up, to_up);
    let right = step_weighed(gap.right, across);
    let up = step_weighed(gap.up, upward);
    step_total(right, up)
}
