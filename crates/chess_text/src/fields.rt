//! Pairs of numbers in text lines.

ghost use Rattle.std.specs.Prelude.{◌≡◌, ◌↔◌, FitsSigned, IfSome, IfNone, IfOk, IfErr, IsTrue};
ghost use Rattle.std.specs.Int.{w64};
ghost use Rattle.chess_text.specs.Fields.{IsField, IsPairRefusal, HasTwoFields, pair_text, two_fields};

use text_fields::{read_number, split_at_blank};

/// Why two fields are not a pair of numbers.
#[derive(Clone, Copy, PartialEq, Eq)]
pub enum PairWhy {
    /// There are not two fields with one blank between them.
    Shape,
    /// A field is not a number of 64 bits.
    Number,
}

/// Returns whether the text is a field: at least one byte, and no blank.
fn is_field(text: &[u8]) -> bool
    ensures { IsTrue result ↔ IsField text.now }
{
    !text.is_empty() && !text.contains(&b' ')
}

/// Splits the text into two fields with one blank between them.
fn split_fields(text: &[u8]) -> Option<(&[u8], &[u8])>
    ensures some { IfSome result (λ p. (text.now ≡ two_fields p.0.now p.1.now) × IsField p.0.now × IsField p.1.now) }
    ensures none { IfNone result (HasTwoFields text.now → ⊥) }
{
    let Some((first, second)) = split_at_blank(text) else {
        return None;
    };
    if !is_field(first) {
        return None;
    }
    if !is_field(second) {
        return None;
    }
    Some((first, second))
}

/// Parses two numbers of 64 bits with one blank between them.
pub(crate) fn read_pair(text: &[u8]) -> Result<(i64, i64), PairWhy>
    ensures pair { IfOk result (λ p. text.now ≡ pair_text p.0 p.1) }
    ensures fits { IfOk result (λ p. FitsSigned w64 p.0 × FitsSigned w64 p.1) }
    ensures refused { IfErr result (IsPairRefusal text.now) }
{
    let Some((first, second)) = split_fields(text) else {
        return Err(PairWhy::Shape);
    };
    match (read_number(first), read_number(second)) {
        (Some(x), Some(y)) => Ok((x, y)),
        _ => Err(PairWhy::Number),
    }
}
