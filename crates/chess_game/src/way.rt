//! How far a man may go along a ray.

ghost use Rattle.std.specs.Prelude.{◌≡◌, ◌≢◌, ◌↔◌, ◌⊎◌, ◌≤◌, ◌<◌, ◌≤ℤ◌, ◌+ℤ◌, ◌*ℤ◌, ◌+◌, ◌^◌, max, length, neg_ℤ, true, false, pos, unsigned_abs, ℕ, IfNone, IfSome, IsSomeAnd, IsTrue, slice_get};
ghost use Rattle.game_rules.specs.Game.{IsDirection, after_steps, man_at};
ghost use Rattle.game_rules.specs.Rays.{IsAt};
ghost use Rattle.chess_game.specs.Along.{IsIn, IsNearest, IsReach, IsShort, IsStepwise, IsWithin, IsWithinAfter, StandsOff};
ghost use Rattle.chess_game.specs.Near.{IsNarrow, IsNear};
ghost use Rattle.chess_game.specs.Offsets.{IsTimes};
ghost use Rattle.chess_game.specs.Way.{IsFreeFrom, IsHitFrom, IsInside};

use crate::board::Board;
use crate::geometry::{Offset, is_times, offset_between, steps_of};
use crate::piece::Piece;
use game_rules::{Ray, Square};

/// A rectangle of squares, edges included. It is empty if an edge `low` exceeds its `high`.
#[derive(Clone, Copy, PartialEq, Eq)]
pub struct Frame {
    pub x_low: i64,
    pub x_high: i64,
    pub y_low: i64,
    pub y_high: i64,
}

impl Frame {
    /// Returns the frame of all squares with i64 coordinates.
    pub fn whole() -> Frame
        ensures { result ≡ record { x_low = i64.MIN; x_high = i64.MAX; y_low = i64.MIN; y_high = i64.MAX } }
    {
        Frame {
            x_low: i64::MIN,
            x_high: i64::MAX,
            y_low: i64::MIN,
            y_high: i64::MAX,
        }
    }
}

/// How far a man may go along a ray: the distances from `near` to `far`, none if `near` is 1 and `far` is 0, and the
/// number of the man that he meets there, if any.
#[derive(Clone, Copy, PartialEq, Eq)]
pub struct Way {
    pub near: u128,
    pub far: u128,
    pub hits: Option<u8>,
}

/// The distances from `first` to `last`.
#[derive(Clone, Copy)]
pub(crate) struct DistanceRange {
    pub(crate) first: u128,
    pub(crate) last: u128,
}

/// A man on the ray, by his index.
#[derive(Clone, Copy)]
pub(crate) struct Hit {
    pub(crate) distance: u128,
    pub(crate) index: usize,
}

/// A bound on every distance between two i64 coordinates.
const LIMIT: u128 = 1 << 64;

/// No distance.
fn no_span() -> DistanceRange
    ensures first { result.first ≡ 1 }
    ensures last { result.last ≡ 0 }
{
    DistanceRange { first: 1, last: 0 }
}

/// A coordinate that changes by equal steps, and the least and the greatest value allowed.
#[derive(Clone, Copy)]
pub(crate) struct Progression {
    pub(crate) at: i128,
    pub(crate) step: i128,
    pub(crate) low: i128,
    pub(crate) high: i128,
}

/// The same axis, seen from its other end.
fn mirrored(axis: Progression) -> Progression
    requires short { IsShort axis }
    requires step { unsigned_abs axis.step ≤ 2 }
    ensures at { result.at ≡ neg_ℤ axis.at }
    ensures step { result.step ≡ neg_ℤ axis.step }
    ensures low { result.low ≡ neg_ℤ axis.high }
    ensures high { result.high ≡ neg_ℤ axis.low }
    ensures short { IsShort result }
{
    Progression {
        at: -axis.at,
        step: -axis.step,
        low: -axis.high,
        high: -axis.low,
    }
}

/// Returns the distances at which a coordinate that grows by steps of 1 is allowed.
fn rising_span(axis: Progression) -> DistanceRange
    requires { IsShort axis }
    ensures span { (t : ℕ) → IsIn result t ↔ IsWithin axis (axis.at +ℤ pos t) t }
    ensures bound { result.last ≤ 2 ^ 64 }
{
    if axis.high <= axis.at {
        return no_span();
    }
    let last = (axis.high - axis.at).unsigned_abs();
    let first = if axis.low > axis.at {
        (axis.low - axis.at).unsigned_abs()
    } else {
        1
    };
    DistanceRange { first, last }
}

/// Returns the distances at which a coordinate that grows by steps of 2 is allowed.
fn doubled_span(axis: Progression) -> DistanceRange
    requires { IsShort axis }
    ensures span { (t : ℕ) → IsIn result t ↔ IsWithin axis (axis.at +ℤ pos (t + t)) t }
    ensures bound { result.last ≤ 2 ^ 64 }
{
    if axis.high <= axis.at {
        return no_span();
    }
    let last = (axis.high - axis.at).unsigned_abs() / 2;
    let first = if axis.low > axis.at {
        ((axis.low - axis.at).unsigned_abs() + 1) / 2
    } else {
        1
    };
    DistanceRange { first, last }
}

/// Returns the distances up to `LIMIT` at which a constant coordinate is allowed.
fn level_span(axis: Progression) -> DistanceRange
    ensures span { (t : ℕ) → t ≤ 2 ^ 64 → IsIn result t ↔ IsWithin axis axis.at t }
    ensures bound { result.last ≤ 2 ^ 64 }
{
    if axis.low <= axis.at && axis.at <= axis.high {
        return DistanceRange {
            first: 1,
            last: LIMIT,
        };
    }
    no_span()
}

/// Returns the distances at which a growing coordinate is allowed.
fn growing_span(axis: Progression) -> DistanceRange
    requires short { IsShort axis }
    requires step { (axis.step ≡ pos 1) ⊎ (axis.step ≡ pos 2) }
    ensures span { (t : ℕ) → IsIn result t ↔ IsWithinAfter axis t }
    ensures bound { result.last ≤ 2 ^ 64 }
{
    if axis.step == 1 {
        rising_span(axis)
    } else {
        doubled_span(axis)
    }
}

/// Returns the distances up to `LIMIT` at which the coordinate is allowed.
fn axis_span(axis: Progression) -> DistanceRange
    requires short { IsShort axis }
    requires step { unsigned_abs axis.step ≤ 2 }
    ensures span { (t : ℕ) → t ≤ 2 ^ 64 → IsIn result t ↔ IsWithinAfter axis t }
    ensures bound { result.last ≤ 2 ^ 64 }
    ensures all { axis.step ≢ pos 0 → (t : ℕ) → IsWithinAfter axis t → t ≤ 2 ^ 64 }
{
    if axis.step == 0 {
        level_span(axis)
    } else if axis.step > 0 {
        growing_span(axis)
    } else {
        let axis = mirrored(axis);
        growing_span(axis)
    }
}

/// The columns of the ray's squares.
fn x_axis(from: Square, ray: Ray, frame: Frame) -> Progression
    requires { IsNarrow from }
    ensures at { result.at ≡ from.x }
    ensures step { result.step ≡ ray.dx }
    ensures low { result.low ≡ frame.x_low }
    ensures high { result.high ≡ frame.x_high }
    ensures short { IsShort result }
{
    Progression {
        at: from.x,
        step: i128::from(ray.dx),
        low: i128::from(frame.x_low),
        high: i128::from(frame.x_high),
    }
}

/// The rows of the ray's squares.
fn y_axis(from: Square, ray: Ray, frame: Frame) -> Progression
    requires { IsNarrow from }
    ensures at { result.at ≡ from.y }
    ensures step { result.step ≡ ray.dy }
    ensures low { result.low ≡ frame.y_low }
    ensures high { result.high ≡ frame.y_high }
    ensures short { IsShort result }
{
    Progression {
        at: from.y,
        step: i128::from(ray.dy),
        low: i128::from(frame.y_low),
        high: i128::from(frame.y_high),
    }
}

/// The distances that both spans have.
fn overlap(x: DistanceRange, y: DistanceRange) -> DistanceRange
    ensures span { (t : ℕ) → IsIn result t ↔ (IsIn x t × IsIn y t) }
    ensures bound { (result.last ≤ x.last) × (result.last ≤ y.last) }
{
    DistanceRange {
        first: x.first.max(y.first),
        last: x.last.min(y.last),
    }
}

/// The distances at which a far ray leads to a square of the frame.
fn slide_span(from: Square, ray: Ray, frame: Frame) -> DistanceRange
    requires narrow { IsNarrow from }
    requires direction { IsDirection ray.dx ray.dy }
    ensures span { (t : ℕ) → IsIn result t ↔ ((1 ≤ t) × IsInside frame (after_steps from t ray.dx ray.dy)) }
    ensures bound { result.last ≤ 2 ^ 64 }
{
    let x = x_axis(from, ray, frame);
    let y = y_axis(from, ray, frame);
    let columns = axis_span(x);
    let rows = axis_span(y);
    overlap(columns, rows)
}

/// The step of the ray.
fn step_of(ray: Ray) -> Offset
    ensures x { result.x ≡ ray.dx }
    ensures y { result.y ≡ ray.dy }
{
    Offset {
        x: i128::from(ray.dx),
        y: i128::from(ray.dy),
    }
}

/// The first square of the ray.
fn first_square(from: Square, ray: Ray) -> Square
    requires { IsNarrow from }
    ensures x { result.x ≡ from.x +ℤ ray.dx }
    ensures y { result.y ≡ from.y +ℤ ray.dy }
{
    Square {
        x: from.x + i128::from(ray.dx),
        y: from.y + i128::from(ray.dy),
    }
}

fn is_in_columns(frame: Frame, square: Square) -> bool
    ensures { IsTrue result ↔ ((frame.x_low ≤ℤ square.x) × (square.x ≤ℤ frame.x_high)) }
{
    i128::from(frame.x_low) <= square.x && square.x <= i128::from(frame.x_high)
}

fn is_in_rows(frame: Frame, square: Square) -> bool
    ensures { IsTrue result ↔ ((frame.y_low ≤ℤ square.y) × (square.y ≤ℤ frame.y_high)) }
{
    i128::from(frame.y_low) <= square.y && square.y <= i128::from(frame.y_high)
}

/// Whether the square lies in the frame.
fn is_inside(frame: Frame, square: Square) -> bool
    ensures { IsTrue result ↔ IsInside frame square }
{
    is_in_columns(frame, square) && is_in_rows(frame, square)
}

/// The distance 1, if the first square of the ray lies in the frame.
fn leap_span(from: Square, ray: Ray, frame: Frame) -> DistanceRange
    requires { IsNarrow from }
    ensures span { (t : ℕ) → IsIn result t ↔ ((t ≡ 1) × IsInside frame (after_steps from t ray.dx ray.dy)) }
    ensures bound { result.last ≤ 2 ^ 64 }
{
    let square = first_square(from, ray);
    if is_inside(frame, square) {
        return DistanceRange { first: 1, last: 1 };
    }
    no_span()
}

/// The distances at which the ray leads to a square of the frame.
fn reach(from: Square, ray: Ray, frame: Frame) -> DistanceRange
    requires narrow { IsNarrow from }
    requires stepwise { IsStepwise ray }
    ensures span { (t : ℕ) → IsIn result t ↔ IsReach ray from frame t }
    ensures bound { result.last ≤ 2 ^ 64 }
{
    if ray.far {
        slide_span(from, ray, frame)
    } else {
        leap_span(from, ray, frame)
    }
}

/// How many times `unit` the offset is, if it is a multiple of it and not zero.
fn times_of(offset: Offset, unit: Offset) -> Option<u128>
    requires { IsDirection unit.x unit.y }
    ensures some { IfSome result (IsTimes unit.x unit.y offset.x offset.y) }
    ensures none { IfNone result ((t : ℕ) → IsTimes unit.x unit.y offset.x offset.y t → ⊥) }
{
    let times = steps_of(offset);
    if is_times(offset, unit, times) {
        Some(times)
    } else {
        None
    }
}

/// How far along a far ray the square lies, if it does.
fn slide_to(from: Square, to: Square, ray: Ray) -> Option<u128>
    requires from { IsNear from }
    requires to { IsNear to }
    requires far { ray.far ≡ true }
    requires direction { IsDirection ray.dx ray.dy }
    ensures some { IfSome result (λ t. IsAt ray t from to) }
    ensures none { IfNone result ((t : ℕ) → IsAt ray t from to → ⊥) }
{
    let offset = offset_between(from, to);
    let unit = step_of(ray);
    times_of(offset, unit)
}

fn is_same(offset: Offset, other: Offset) -> bool
    ensures { IsTrue result ↔ ((offset.x ≡ other.x) × (offset.y ≡ other.y)) }
{
    offset == other
}

/// The distance 1, if the square is the first of the ray.
fn leap_to(from: Square, to: Square, ray: Ray) -> Option<u128>
    requires from { IsNear from }
    requires to { IsNear to }
    requires leaps { ray.far ≡ false }
    ensures some { IfSome result (λ t. IsAt ray t from to) }
    ensures none { IfNone result ((t : ℕ) → IsAt ray t from to → ⊥) }
{
    let offset = offset_between(from, to);
    let unit = step_of(ray);
    if is_same(offset, unit) { Some(1) } else { None }
}

/// How far along the ray the square lies, if it does.
fn distance_to(from: Square, to: Square, ray: Ray) -> Option<u128>
    requires from { IsNear from }
    requires to { IsNear to }
    requires stepwise { IsStepwise ray }
    ensures some { IfSome result (λ t. IsAt ray t from to) }
    ensures none { IfNone result ((t : ℕ) → IsAt ray t from to → ⊥) }
{
    if ray.far {
        slide_to(from, to, ray)
    } else {
        leap_to(from, to, ray)
    }
}

/// How far along the ray the man stands, if he does.
fn distance_of(man: &Piece, from: Square, ray: Ray) -> Option<u128>
    requires from { IsNear from }
    requires stepwise { IsStepwise ray }
    ensures some { IfSome result (StandsOff ray from man.now) }
    ensures none { IfNone result ((t : ℕ) → StandsOff ray from man.now t → ⊥) }
{
    match man.square() {
        None => None,
        Some(square) => distance_to(from, square, ray),
    }
}

/// The nearer of a hit among the men before an index and the man there.
fn nearer(men: &[Piece], index: usize, best: Option<Hit>, from: Square, ray: Ray) -> Option<Hit>
    requires within { index < length men.now }
    requires near { IsNear from }
    requires stepwise { IsStepwise ray }
    requires best { IsNearest men.now index from ray best }
    ensures { IsNearest men.now (index + 1) from ray result }
{
    let man = men[index];
    let Some(distance) = distance_of(&man, from, ray) else {
        return best;
    };
    match best {
        Some(hit) if hit.distance <= distance => best,
        _ => Some(Hit { distance, index }),
    }
}

/// The first of the men on the ray.
fn first_on_ray(men: &[Piece], from: Square, ray: Ray) -> Option<Hit>
    requires near { IsNear from }
    requires stepwise { IsStepwise ray }
    ensures { IsNearest men.now (length men.now) from ray result }
{
    let mut best = None;
    for index in 0..men.len() {
        best = nearer(men, index, best, from, ray);
    }
    best
}

/// The last distance of a span that lies before the hit.
fn last_before(span: DistanceRange, hit: Option<Hit>) -> u128
    requires { IfSome hit (λ h. 1 ≤ h.distance) }
    ensures last { (t : ℕ) → (t ≤ result) ↔ ((t ≤ span.last) × IfSome hit (λ h. t < h.distance)) }
    ensures bound { result ≤ span.last }
{
    match hit {
        None => span.last,
        Some(hit) => span.last.min(hit.distance - 1),
    }
}

/// The number of the man who is hit at a distance of the span.
fn number_within(span: DistanceRange, hit: Option<Hit>) -> Option<u8>
    requires { IfSome hit (λ h. h.index < 8) }
    ensures some { IfSome result (λ n. IsSomeAnd hit (λ h. (n ≡ h.index + 1) × IsIn span h.distance)) }
    ensures none { IfNone result (IfSome hit (λ h. IsIn span h.distance → ⊥)) }
{
    let hit = hit?;
    if hit.distance < span.first || span.last < hit.distance {
        return None;
    }
    Some(hit.index as u8 + 1)
}

/// Returns how far the ray from this square goes over empty squares of the frame.
pub(crate) fn way_from(board: &Board, from: Square, ray: Ray, frame: Frame) -> Way
    requires narrow { IsNarrow from }
    requires stepwise { IsStepwise ray }
    ensures distances { (t : ℕ) → ((result.near ≤ t) × (t ≤ result.far)) ↔ IsFreeFrom board.now from ray frame t }
    ensures none { ((t : ℕ) → IsFreeFrom board.now from ray frame t → ⊥) → (result.near ≡ 1) × (result.far ≡ 0) }
    ensures bound { result.far ≤ 2 ^ 64 }
    ensures hit { IfSome result.hits (IsHitFrom board.now from ray frame) }
    ensures no_hit { IfNone result.hits ((i : ℕ) → IsHitFrom board.now from ray frame i → ⊥) }
{
    let span = reach(from, ray, frame);
    let hit = first_on_ray(board.men(), from, ray);
    let far = last_before(span, hit);
    let hits = number_within(span, hit);
    if span.first <= far {
        return Way {
            near: span.first,
            far,
            hits,
        };
    }
    Way {
        near: 1,
        far: 0,
        hits,
    }
}
