//! Layout and search of open-addressing hash tables: linear probing (Knuth, The Art of Computer Programming, volume 3, section
//! 6.4). The number of slots is a power of two; at most half of them are used.
ghost use Rattle.std.specs.Prelude.{◌≡◌, ◌<◌, ◌≤◌, ◌+◌, ◌*◌, IfOk};
ghost use Rattle.letter_diagram.specs.Probing.{place_of, spread_of};

use std::alloc::AllocError;

/// The least number of slots of a nonempty table.
const LEAST_SLOTS: usize = 16;

/// The odd number next to 2^64 divided by the golden ratio.
const LEFT_FACTOR: usize = 0x9e37_79b9_7f4a_7c15;

/// The odd number next to 2^64 divided by the real root of x^3 = x + 1.
const RIGHT_FACTOR: usize = 0xc13f_a9a9_02a6_328f;

/// Returns the number of slots of a table for `items` items.
pub fn slots_for(items: usize) -> Result<usize, AllocError>
    ensures half { IfOk result (λ slots. 2 * items ≤ slots) }
    ensures more { IfOk result (λ slots. items + 2 ≤ slots) }
{
    items
        .checked_mul(2)
        .and_then(|slots| slots.max(LEAST_SLOTS).checked_next_power_of_two())
        .ok_or(AllocError)
}

/// Hashes a pair of numbers below 2^32: the upper half of a sum of products (multiplicative hashing).
pub fn scatter(left: usize, right: usize) -> usize
    ensures { result ≡ spread_of left right }
{
    let left = left.wrapping_mul(LEFT_FACTOR);
    let right = right.wrapping_mul(RIGHT_FACTOR);
    left.wrapping_add(right) >> 32
}

/// Returns the slot number after `step` steps of the probe sequence of a hash; the last slot is followed by the first.
pub fn place(slots: usize, number: usize, step: usize) -> usize
    requires { 0 < slots }
    ensures at { result ≡ place_of slots number step }
    ensures within { result < slots }
{
    number.wrapping_add(step) & (slots - 1)
}
