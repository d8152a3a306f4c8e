//! A ray, prepared for a search from its near end on.
ghost use Rattle.std.specs.Prelude.{◌≡◌, ◌≤◌, ◌<◌, ◌^◌, ◌+◌, ◌*◌, ℕ, length, All, pos, slice_index, slice_index_or, unsigned_abs};
ghost use Rattle.track_word.specs.Word.{integer_bit, letter_of};
ghost use Rattle.auto_search.specs.TupleRay.{IsTupleRay};
ghost use Rattle.auto_search.specs.Bits.{IsRay, IsStill};

use crate::axis::{Axis, unit_of};
use crate::tuple_ray::TupleRay;
use limits::MOST_TRACKS;
use track_word::bit_of;

/// The maximum number of places of a search, including the sign's: a value on a ray has at most 67 bits.
pub const MOST_PLACES: usize = 68;

/// The two tracks along which a ray moves, and the letters of all other tracks.
#[derive(Drop)]
pub struct TrackRay {
    pub x: Axis,
    pub y: Axis,
    /// For each place up to the top, the letter of the tracks that do not move.
    pub still: [u32; MOST_PLACES],
    /// The place from which on all values have only sign bits.
    pub top: u8,
}

impl TrackRay {
    /// Prepares the ray from the distance `near` on, for at most `steps` steps.
    pub fn new(way: &TupleRay, near: u128, steps: u128) -> TrackRay
        requires way { IsTupleRay way.now }
        requires few { length way.now.fixed.now ≤ MOST_TRACKS }
        requires near { near ≤ 2 ^ 64 }
        requires steps { steps ≤ 2 ^ 64 }
        ensures { IsRay way.now near steps result }
    {
        let x = Axis::new(way.fixed[way.x_track as usize], way.dx, near, way.x_track);
        let y = Axis::new(way.fixed[way.y_track as usize], way.dy, near, way.y_track);
        let top = bits_of(reach_of(way.fixed, x, y, steps));
        TrackRay {
            x,
            y,
            still: still_letters(way, top),
            top,
        }
    }
}

/// Returns a bound on the absolute values that the ray reaches within this many steps.
fn reach_of(fixed: &[i64], x: Axis, y: Axis, steps: u128) -> u128
    requires x { unsigned_abs x.base < 2 ^ 66 }
    requires y { unsigned_abs y.base < 2 ^ 66 }
    requires steps { steps ≤ 2 ^ 64 }
    ensures fixed { All (λ value. unsigned_abs value ≤ result) fixed.now }
    ensures x { unsigned_abs x.base + 2 * steps ≤ result }
    ensures y { unsigned_abs y.base + 2 * steps ≤ result }
    ensures small { result < 2 ^ 67 }
{
    let moving = x.base.unsigned_abs().max(y.base.unsigned_abs()) + 2 * steps;
    moving.max(greatest(fixed) as u128)
}

/// Returns a bound on the absolute values.
fn greatest(values: &[i64]) -> u64
    ensures bound { All (λ value. unsigned_abs value ≤ result) values.now }
    ensures small { result ≤ 2 ^ 63 }
{
    let mut most = 0;
    for value in values {
        most = most.max(value.unsigned_abs());
    }
    most
}

/// Returns the number of bits of a number.
fn bits_of(number: u128) -> u8
    requires { number < 2 ^ 67 }
    ensures enough { number < 2 ^ result }
    ensures needed { 2 ^ result ≤ 2 * number + 1 }
    ensures few { result ≤ 67 }
{
    (128 - number.leading_zeros()) as u8
}

/// Returns the letters of the tracks that do not move, for the places up to the top.
fn still_letters(way: &TupleRay, top: u8) -> [u32; MOST_PLACES]
    requires way { IsTupleRay way.now }
    requires few { length way.now.fixed.now ≤ MOST_TRACKS }
    requires top { top ≤ 67 }
    ensures still { (place : ℕ) → place ≤ top → IsStill way.now place (slice_index result place) }
{
    let mut still = [0; MOST_PLACES];
    for place in 0..top + 1 {
        still[place as usize] = still_letter(way, place);
    }
    still
}

/// Returns the letter of a place without the bits of the two moving tracks.
fn still_letter(way: &TupleRay, place: u8) -> u32
    requires way { IsTupleRay way.now }
    requires few { length way.now.fixed.now ≤ MOST_TRACKS }
    requires place { place ≤ 67 }
    ensures { IsStill way.now place result }
{
    let whole = letter_at(way.fixed, place);
    let x = bit_of_track(way.fixed, way.x_track, place) * unit_of(way.x_track);
    let y = bit_of_track(way.fixed, way.y_track, place) * unit_of(way.y_track);
    whole - x - y
}

/// Returns the bit at a place of the value of a track.
fn bit_of_track(values: &[i64], track: u8, place: u8) -> u32
    requires track { track < length values.now }
    requires place { place ≤ 67 }
    ensures bit { result ≡ integer_bit (slice_index_or values.now track (pos 0)) place }
    ensures small { result < 2 }
{
    let value = values[track as usize];
    bit_of(value as i128, place)
}

/// Returns the letter of the bits at a place.
fn letter_at(values: &[i64], place: u8) -> u32
    requires few { length values.now ≤ MOST_TRACKS }
    requires place { place ≤ 67 }
    ensures letter { result ≡ letter_of values.now place }
    ensures within { result < 2 ^ length values.now }
{
    match values.split_first() {
        None => 0,
        Some((value, rest)) => bit_of(*value as i128, place) + 2 * letter_at(rest, place),
    }
}
