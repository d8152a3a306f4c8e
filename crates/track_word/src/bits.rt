//! The bits of integers.
ghost use Rattle.std.specs.Prelude.{◌≡◌, ◌≤◌};
ghost use Rattle.std.specs.Int.{bit_at};
ghost use Rattle.track_word.specs.Word.{integer_bit};

/// Returns bit `place` of `value` in two's complement of unlimited length; bit 0 is the lowest.
pub fn bit_of(value: i128, place: u8) -> u32
    requires { place ≤ 127 }
    ensures { result ≡ integer_bit value place }
{
    if value < 0 {
        1 - low_bit((!value).unsigned_abs(), place)
    } else {
        low_bit(value.unsigned_abs(), place)
    }
}

fn low_bit(value: u128, place: u8) -> u32
    requires { place ≤ 127 }
    ensures { result ≡ bit_at value place }
{
    ((value >> place) & 1) as u32
}
