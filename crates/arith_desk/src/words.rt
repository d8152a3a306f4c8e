//! The tokens: keywords, letters and numbers.
ghost use Rattle.std.specs.Prelude.{◌≡◌, ◌≢◌, ◌<◌, ◌≤ℤ◌, ℤ, IfSome, IfNone};
ghost use Rattle.std.specs.Fmt.{signed_decimal};
ghost use Rattle.track_word.specs.declared.tracks.Var.{Var};
ghost use Rattle.arith_desk.specs.Words.{IsNamed, letter};

use text_fields::read_number;
use track_word::{Rel, Var};

/// A binary connective: and, or.
#[derive(Clone, Copy, PartialEq, Eq)]
pub enum BinaryOp {
    And,
    Or,
}

/// A quantifier.
#[derive(Clone, Copy, PartialEq, Eq)]
pub enum Quantifier {
    /// For at least one integer.
    Ex,
    /// For each integer.
    All,
}

/// The first token of a formula.
#[derive(Clone, Copy, PartialEq, Eq)]
pub enum Word {
    Not,
    Join(BinaryOp),
    Bind(Quantifier),
    Compare(Rel),
}

/// Returns the keyword that the field is.
pub(crate) fn word_of(field: &[u8]) -> Option<Word>
    ensures { IsNamed field.now result }
{
    if field == b"not".as_slice() {
        return Some(Word::Not);
    }
    if field == b"and".as_slice() {
        return Some(Word::Join(BinaryOp::And));
    }
    if field == b"or".as_slice() {
        return Some(Word::Join(BinaryOp::Or));
    }
    if field == b"ex".as_slice() {
        return Some(Word::Bind(Quantifier::Ex));
    }
    if field == b"all".as_slice() {
        return Some(Word::Bind(Quantifier::All));
    }
    if field == b"le".as_slice() {
        return Some(Word::Compare(Rel::Le));
    }
    if field == b"eq".as_slice() {
        return Some(Word::Compare(Rel::Eq));
    }
    None
}

/// Returns the variable whose letter the field is.
pub(crate) fn letter_of(field: &[u8]) -> Option<Var>
    ensures some { IfSome result (λ x. (x.0 < 16) × (field.now ≡ letter x)) }
    ensures none { IfNone result ((x : Var) → x.0 < 16 → field.now ≢ letter x) }
{
    let [byte] = field else {
        return None;
    };
    if *byte < b'a' || *byte > b'p' {
        return None;
    }
    Some(Var(*byte - b'a'))
}

/// Returns the number that the field spells, if it is between two others.
pub(crate) fn number_between(field: &[u8], low: i32, high: i32) -> Option<i32>
    ensures low { IfSome result (λ n. low ≤ℤ n) }
    ensures high { IfSome result (λ n. n ≤ℤ high) }
    ensures some { IfSome result (λ n. field.now ≡ signed_decimal n) }
    ensures none { IfNone result ((n : ℤ) → low ≤ℤ n → n ≤ℤ high → field.now ≢ signed_decimal n) }
{
    let number = read_number(field)?;
    if number < i64::from(low) {
        return None;
    }
    if number > i64::from(high) {
        return None;
    }
    Some(number as i32)
}
