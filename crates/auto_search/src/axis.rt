//! One of the two tracks along which a ray moves.
ghost use Rattle.std.specs.Prelude.{◌≡◌, ◌+◌, ◌^◌, ◌<◌, ◌≤◌, unsigned_abs};
ghost use Rattle.auto_search.specs.TupleRay.{IsSlope};
ghost use Rattle.auto_search.specs.Bits.{IsAxis, fall, rise, sum_at};
ghost use Rattle.auto_search.specs.Search.{sign_of};

use crate::tuple_ray::value_along;
use limits::MOST_TRACKS;
use track_word::bit_of;

/// The value of a track at the near end of a ray, and what the bits of a distance add to it. For a negative slope, carries are
/// offset so that none is negative.
#[derive(Clone, Copy)]
pub struct Axis {
    pub base: i128,
    /// What a bit 0 adds.
    pub zero: u8,
    /// What a bit 1 adds.
    pub one: u8,
    /// The letter with only this track's bit.
    pub unit: u32,
}

impl Axis {
    /// Creates the axis of a track with this value at distance 0 and this slope, at distance `near`.
    pub fn new(value: i64, slope: i8, near: u128, track: u8) -> Axis
        requires slope { IsSlope slope }
        requires near { near ≤ 2 ^ 64 }
        requires track { track < MOST_TRACKS }
        ensures axis { IsAxis value slope near track result }
        ensures small { unsigned_abs result.base < 2 ^ 66 }
    {
        Axis {
            base: value_along(value, slope, near),
            zero: fall_of(slope),
            one: rise_of(slope),
            unit: unit_of(track),
        }
    }

    /// Returns the sum at a place: the carry into it, the bit of the near end, and what the bit of the distance adds.
    pub fn sum(self, place: u8, carried: u8, bit: bool) -> u8
        requires small { self.zero + self.one ≤ 2 }
        requires carried { carried ≤ 2 }
        requires place { place ≤ 127 }
        ensures sum { result ≡ sum_at self place carried bit }
        ensures within { result ≤ 5 }
    {
        carried + bit_of(self.base, place) as u8 + if bit { self.one } else { self.zero }
    }

    /// Returns the sign bit of the value, given the carry of all bits into a place, or none if the value is too long.
    pub fn sign(self, place: u8, carried: u8) -> Option<u8>
        requires small { self.zero + self.one ≤ 2 }
        requires carried { carried ≤ 2 }
        requires place { place ≤ 127 }
        ensures { result ≡ sign_of self place carried }
    {
        let start = self.zero + bit_of(self.base, place) as u8;
        if carried == start {
            Some(0)
        } else if carried + 1 == start {
            Some(1)
        } else {
            None
        }
    }
}

/// Returns the negated slope if it is negative, and 0 otherwise.
fn fall_of(slope: i8) -> u8
    requires { IsSlope slope }
    ensures { result ≡ fall slope }
{
    match slope {
        -2 => 2,
        -1 => 1,
        _ => 0,
    }
}

/// Returns the slope if it is positive, and 0 otherwise.
fn rise_of(slope: i8) -> u8
    requires { IsSlope slope }
    ensures { result ≡ rise slope }
{
    match slope {
        1 => 1,
        2 => 2,
        _ => 0,
    }
}

/// Returns the letter with only the bit of a track.
pub fn unit_of(track: u8) -> u32
    requires { track < MOST_TRACKS }
    ensures { result ≡ 2 ^ track }
{
    1 << track
}
