//! Offsets between squares, and which of them a kind of man reaches.

ghost use Rattle.std.specs.Prelude.{◌≡◌, ◌↔◌, ◌⊎◌, ◌≤◌, ◌+◌, ◌*◌, ◌-ℤ◌, ◌*ℤ◌, max, neg_ℤ, pos, unsigned_abs, IsTrue};
ghost use Rattle.game_rules.specs.Game.{IsBetween, IsDiagonal, IsLeap, IsLeaps, IsStraight, forward};
ghost use Rattle.game_laws.specs.Answer.{step_toward, steps_of};
ghost use Rattle.game_laws.specs.Reach.{HasReach};
ghost use Rattle.chess_game.specs.Near.{IsNear};
ghost use Rattle.chess_game.specs.Offsets.{IsPart, IsTimes};

use game_rules::{Kind, Side, Square};

/// The offset from one square to another: to the right and up.
#[derive(Clone, Copy, PartialEq, Eq)]
pub(crate) struct Offset {
    pub(crate) x: i128,
    pub(crate) y: i128,
}

/// Returns the offset from one square to another.
pub(crate) fn offset_between(from: Square, to: Square) -> Offset
    requires from { IsNear from }
    requires to { IsNear to }
    ensures right { result.x ≡ to.x -ℤ from.x }
    ensures up { result.y ≡ to.y -ℤ from.y }
{
    Offset {
        x: to.x - from.x,
        y: to.y - from.y,
    }
}

/// Whether exactly one of the two is 0.
fn is_straight(dx: i128, dy: i128) -> bool
    ensures { IsTrue result ↔ IsStraight dx dy }
{
    (dx == 0) != (dy == 0)
}

fn is_diagonal(dx: i128, dy: i128) -> bool
    ensures { IsTrue result ↔ IsDiagonal dx dy }
{
    dx != 0 && dx.unsigned_abs() == dy.unsigned_abs()
}

/// Whether `size` is twice `half`.
fn is_double(size: u128, half: u128) -> bool
    ensures { IsTrue result ↔ (size ≡ half + half) }
{
    size % 2 == 0 && size / 2 == half
}

/// Whether the offset is one leap of a knight.
fn is_leap(dx: i128, dy: i128) -> bool
    ensures { IsTrue result ↔ IsLeap dx dy }
{
    let across = dx.unsigned_abs();
    let along = dy.unsigned_abs();
    (across == 1 && along == 2) || (across == 2 && along == 1)
}

/// Whether the offset is some leaps of a knight in one direction.
fn is_leaps(dx: i128, dy: i128) -> bool
    ensures { IsTrue result ↔ IsLeaps dx dy }
{
    let across = dx.unsigned_abs();
    let along = dy.unsigned_abs();
    (across != 0 && is_double(along, across)) || (along != 0 && is_double(across, along))
}

/// Whether the offset is one step of a king.
fn is_step(dx: i128, dy: i128) -> bool
    ensures { IsTrue result ↔ (max (unsigned_abs dx) (unsigned_abs dy) ≡ 1) }
{
    dx.unsigned_abs().max(dy.unsigned_abs()) == 1
}

/// Whether the offset is one at which a pawn of the side captures.
fn is_pawn_capture(side: Side, dx: i128, dy: i128) -> bool
    ensures { IsTrue result ↔ ((unsigned_abs dx ≡ 1) × (dy ≡ forward side)) }
{
    let forward = match side {
        Side::White => 1,
        Side::Black => -1,
    };
    dx.unsigned_abs() == 1 && dy == forward
}

/// Returns whether a man bears on a square at this offset if nothing is in between.
pub(crate) fn reaches(side: Side, kind: Kind, offset: Offset) -> bool
    ensures { IsTrue result ↔ HasReach side kind offset.x offset.y }
{
    let Offset { x, y } = offset;
    match kind {
        Kind::King => is_step(x, y),
        Kind::Queen => is_straight(x, y) || is_diagonal(x, y),
        Kind::Rook => is_straight(x, y),
        Kind::Bishop => is_diagonal(x, y),
        Kind::Knight => is_leap(x, y),
        Kind::Pawn => is_pawn_capture(side, x, y),
        Kind::Chancellor => is_straight(x, y) || is_leap(x, y),
        Kind::Archbishop => is_diagonal(x, y) || is_leap(x, y),
        Kind::Amazon => is_straight(x, y) || is_diagonal(x, y) || is_leap(x, y),
        Kind::Nightrider => is_leaps(x, y),
    }
}

/// Returns whether one coordinate is 1 in absolute value: then the step to the square passes over no other.
pub(crate) fn is_single(offset: Offset) -> bool
    ensures { IsTrue result ↔ ((unsigned_abs offset.x ≡ 1) ⊎ (unsigned_abs offset.y ≡ 1)) }
{
    offset.x.unsigned_abs() == 1 || offset.y.unsigned_abs() == 1
}

/// Returns whether `size` is `times` times `unit`, which is 1 or 2.
fn is_scaled(size: u128, times: u128, unit: u128) -> bool
    requires { (unit ≡ 1) ⊎ (unit ≡ 2) }
    ensures { IsTrue result ↔ (size ≡ times * unit) }
{
    if unit == 1 {
        size == times
    } else {
        is_double(size, times)
    }
}

/// Returns whether the offset is `times` times `unit`, to the right or up.
fn is_up(offset: i128, times: u128, unit: u128) -> bool
    requires { (unit ≡ 1) ⊎ (unit ≡ 2) }
    ensures { IsTrue result ↔ (offset ≡ pos (times * unit)) }
{
    offset >= 0 && is_scaled(offset.unsigned_abs(), times, unit)
}

/// Returns whether the offset is `times` times `unit`, to the left or down.
fn is_down(offset: i128, times: u128, unit: u128) -> bool
    requires { (unit ≡ 1) ⊎ (unit ≡ 2) }
    ensures { IsTrue result ↔ (offset ≡ neg_ℤ (pos (times * unit))) }
{
    offset <= 0 && is_scaled(offset.unsigned_abs(), times, unit)
}

/// Whether `offset` is this many times `unit`.
fn is_multiple(offset: i128, times: u128, unit: i128) -> bool
    requires { unsigned_abs unit ≤ 2 }
    ensures { IsTrue result ↔ (offset ≡ pos times *ℤ unit) }
{
    let size = unit.unsigned_abs();
    if unit == 0 {
        offset == 0
    } else if unit > 0 {
        is_up(offset, times, size)
    } else {
        is_down(offset, times, size)
    }
}

/// Returns whether the offset is `times` times `unit` and not zero.
pub(crate) fn is_times(offset: Offset, unit: Offset, times: u128) -> bool
    requires x { unsigned_abs unit.x ≤ 2 }
    requires y { unsigned_abs unit.y ≤ 2 }
    ensures { IsTrue result ↔ IsTimes unit.x unit.y offset.x offset.y times }
{
    times > 0 && is_multiple(offset.x, times, unit.x) && is_multiple(offset.y, times, unit.y)
}

/// Returns the number of equal steps in an offset, if it is a multiple of a direction.
pub(crate) fn steps_of(offset: Offset) -> u128
    ensures { result ≡ steps_of (unsigned_abs offset.x) (unsigned_abs offset.y) }
{
    let across = offset.x.unsigned_abs();
    let along = offset.y.unsigned_abs();
    if across == 0 {
        return along;
    }
    if along == 0 {
        return across;
    }
    across.min(along)
}

/// Returns one coordinate of the first step toward an offset, from that coordinate and the other one.
fn unit_part(own: i128, other: i128) -> i128
    ensures step { result ≡ step_toward own other }
    ensures small { unsigned_abs result ≤ 2 }
{
    let sign = own.signum();
    if is_double(own.unsigned_abs(), other.unsigned_abs()) {
        sign + sign
    } else {
        sign
    }
}

/// Returns the first step toward an offset.
pub(crate) fn unit_toward(offset: Offset) -> Offset
    ensures right { result.x ≡ step_toward offset.x offset.y }
    ensures up { result.y ≡ step_toward offset.y offset.x }
    ensures small_x { unsigned_abs result.x ≤ 2 }
    ensures small_y { unsigned_abs result.y ≤ 2 }
{
    Offset {
        x: unit_part(offset.x, offset.y),
        y: unit_part(offset.y, offset.x),
    }
}

/// Returns whether equal steps in one direction lead to `whole`, and fewer of them to `part`.
fn is_part(whole: Offset, part: Offset) -> bool
    ensures { IsTrue result ↔ IsPart whole.x whole.y part.x part.y }
{
    let unit = unit_toward(whole);
    let all = steps_of(whole);
    let few = steps_of(part);
    if all <= few {
        return false;
    }
    is_times(whole, unit, all) && is_times(part, unit, few)
}

/// Returns whether a square is strictly between two others.
pub(crate) fn is_between(from: Square, to: Square, square: Square) -> bool
    requires from { IsNear from }
    requires to { IsNear to }
    requires square { IsNear square }
    ensures { IsTrue result ↔ IsBetween from to square }
{
    let whole = offset_between(from, to);
    let part = offset_between(from, square);
    is_part(whole, part)
}
