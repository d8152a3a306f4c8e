//! Numbers in decimal spelling.

ghost use Rattle.std.specs.Prelude.{◌≡◌, FitsSigned, IfSome, IfNone};
ghost use Rattle.std.specs.Int.{w64};
ghost use Rattle.std.specs.Fmt.{signed_decimal};
ghost use Rattle.text_fields.specs.Numbers.{IsNumber};

use itoa::Buffer;
use std::str;

/// Parses a number of 64 bits in its only spelling: no plus, no leading zero, and no minus before zero. Returns `None`
/// for any other text.
pub fn read_number(text: &[u8]) -> Option<i64>
    ensures some { IfSome result (λ n. text.now ≡ signed_decimal n) }
    ensures fits { IfSome result (FitsSigned w64) }
    ensures none { IfNone result (¬ IsNumber text.now) }
{
    match str::from_utf8(text) {
        Err(_) => None,
        Ok(text) => match text.parse::<i64>() {
            Err(_) => None,
            Ok(number) => {
                if Buffer::new().format(number) == text {
                    Some(number)
                } else {
                    None
                }
            }
        },
    }
}
