//! Numbers with a limited number of bits.
ghost use Rattle.std.specs.Prelude.{◌≡◌, ◌^◌, ◌≤◌};

/// The next number is searched among numbers of at most this many bits.
pub const MOST_BITS: u8 = 101;

/// The greatest number of a set is returned if it has at most this many bits.
pub const GREATEST_BITS: u8 = 100;

/// Returns 2 to the power of `exponent`.
pub(crate) fn power(exponent: u8) -> u128
    requires { exponent ≤ MOST_BITS }
    ensures is { result ≡ 2 ^ exponent }
    ensures small { result ≤ 2 ^ MOST_BITS }
{
    1 << exponent
}
