//! The fields of a line.

ghost use Rattle.std.specs.Prelude.{◌≡◌, ◌++◌, ◌∷◌, IfSome, IfNone};
ghost use Rattle.text_fields.specs.Blanks.{HasNoBlank};

/// Returns the text before the first blank and the text after it, or `None` if there is no blank.
pub fn split_at_blank(text: &[u8]) -> Option<(&[u8], &[u8])>
    ensures some { IfSome result (λ p. (text.now ≡ p.0.now ++ 32 ∷ p.1.now) × HasNoBlank p.0.now) }
    ensures none { IfNone result (HasNoBlank text.now) }
{
    let at = text.iter().position(|byte| *byte == b' ')?;
    Some((&text[..at], &text[at + 1..]))
}
