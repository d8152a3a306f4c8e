//! The tuples at the distances along a ray.
ghost use Rattle.std.specs.Prelude.{◌≡◌, ◌^◌, ◌<◌, ◌≤◌, ◌+ℤ◌, ◌*ℤ◌, pos, unsigned_abs};
ghost use Rattle.auto_search.specs.TupleRay.{IsSlope};

/// A tuple of integers, in the order of an automaton's tracks, and what each step of a ray adds to two of them.
#[derive(Clone, Copy)]
pub struct TupleRay<'a> {
    /// The tuple at distance 0.
    pub fixed: &'a [i64],
    /// The index of the first track along which the ray moves.
    pub x_track: u8,
    /// The index of the second one, which differs from the first.
    pub y_track: u8,
    /// What a step adds on the first track: -2 to 2.
    pub dx: i8,
    /// What a step adds on the second track: -2 to 2.
    pub dy: i8,
}

/// Returns the value of a coordinate after `distance` steps along a ray. It is exact beyond 64 bits.
pub fn value_along(value: i64, slope: i8, distance: u128) -> i128
    requires slope { IsSlope slope }
    requires distance { distance ≤ 2 ^ 64 }
    ensures value { result ≡ value +ℤ (pos distance *ℤ slope) }
    ensures small { unsigned_abs result < 2 ^ 66 }
{
    value as i128 + rise_along(slope, distance)
}

/// Returns what this many steps add.
fn rise_along(slope: i8, distance: u128) -> i128
    requires slope { IsSlope slope }
    requires distance { distance ≤ 2 ^ 64 }
    ensures product { result ≡ pos distance *ℤ slope }
    ensures small { unsigned_abs result ≤ 2 ^ 65 }
{
    let distance = distance as i128;
    match slope {
        -2 => -2 * distance,
        -1 => -distance,
        0 => 0,
        1 => distance,
        _ => 2 * distance,
    }
}
