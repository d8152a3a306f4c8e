//! Bytes as a script spells them.

ghost use Rattle.std.specs.Prelude.{◌<◌, IfOk};
ghost use Rattle.run_trials.specs.Spelling.{AreDigits, Begins, BeginsWithDigits, Escapes, IsDigit, Spells};

use crate::fault::ScriptWhy;
use crate::number::read_number;
use std::alloc::Global;

/// Returns the bytes that the text spells. A byte stands for itself, except the backslash: `\\` is a backslash, `\n` is
/// LF, `\r` is CR, and `\xHH` is the byte of these two hexadecimal digits.
pub fn read_bytes(alloc: Global, text: &str) -> Result<Vec<u8>, ScriptWhy>
    ensures { IfOk result (λ bytes. Spells text.now bytes.items) }
{
    let mut bytes = Vec::new(alloc);
    let mut rest = text.as_bytes();
    while !rest.is_empty() {
        let (byte, behind) = read_byte(rest)?;
        bytes.push(byte)?;
        rest = behind;
    }
    Ok(bytes)
}

/// Returns the first byte that the text spells, and the text after it.
fn read_byte(text: &[u8]) -> Result<(u8, &[u8]), ScriptWhy>
    ensures { IfOk result (λ read. Begins text.now read.0 read.1.now) }
{
    match text {
        [b'\\', escape @ ..] => read_escape(escape),
        [byte, rest @ ..] => Ok((*byte, rest)),
        [] => Err(ScriptWhy::Escape),
    }
}

/// Returns the byte that the letters after a backslash spell, and the text after them.
fn read_escape(text: &[u8]) -> Result<(u8, &[u8]), ScriptWhy>
    ensures { IfOk result (λ read. Escapes text.now read.0 read.1.now) }
{
    match text {
        [b'\\', rest @ ..] => Ok((b'\\', rest)),
        [b'n', rest @ ..] => Ok((b'\n', rest)),
        [b'r', rest @ ..] => Ok((b'\r', rest)),
        [b'x', digits @ ..] => read_hexadecimal(digits),
        _ => Err(ScriptWhy::Escape),
    }
}

/// Returns the byte that the first two digits spell, and the text after them.
fn read_hexadecimal(text: &[u8]) -> Result<(u8, &[u8]), ScriptWhy>
    ensures { IfOk result (λ read. BeginsWithDigits text.now read.0 read.1.now) }
{
    match text {
        [high, low, rest @ ..] => {
            let byte = read_digits(*high, *low)?;
            Ok((byte, rest))
        }
        _ => Err(ScriptWhy::Escape),
    }
}

/// The byte that two hexadecimal digits are.
fn read_digits(high: u8, low: u8) -> Result<u8, ScriptWhy>
    ensures { IfOk result (AreDigits high low) }
{
    Ok(16 * read_digit(high)? + read_digit(low)?)
}

/// The number that a hexadecimal digit is.
fn read_digit(digit: u8) -> Result<u8, ScriptWhy>
    ensures number { IfOk result (IsDigit digit) }
    ensures small { IfOk result (λ value. value < 16) }
{
    match digit {
        b'0'..=b'9' => Ok(digit - b'0'),
        b'a'..=b'f' => Ok(digit - b'a' + 10),
        _ => Err(ScriptWhy::Escape),
    }
}

/// Appends the bytes after a bar: a line with its LF; after `-`, a text without LF; after `* N`, a text N times.
pub fn push_piece(alloc: Global, out: &mut Vec<u8>, piece: &str) -> Result<(), ScriptWhy> {
    if let Some(text) = piece.strip_prefix("- ") {
        return push_bytes(alloc, out, text, 1);
    }
    if let Some(repeated) = piece.strip_prefix("* ") {
        return push_repeated(alloc, out, repeated);
    }
    if let Some(line) = piece.strip_prefix(' ') {
        push_bytes(alloc, out, line, 1)?;
    } else if !piece.is_empty() {
        return Err(ScriptWhy::Unknown);
    }
    out.push(b'\n')?;
    Ok(())
}

/// Adds the bytes of `N TEXT`: those of the text, N times.
fn push_repeated(alloc: Global, out: &mut Vec<u8>, repeated: &str) -> Result<(), ScriptWhy> {
    let Some((count, text)) = repeated.split_once(' ') else {
        return Err(ScriptWhy::Unknown);
    };
    push_bytes(alloc, out, text, read_number(count)?)
}

/// Appends the bytes that a text spells `count` times.
fn push_bytes(alloc: Global, out: &mut Vec<u8>, text: &str, count: u16) -> Result<(), ScriptWhy> {
    let bytes = read_bytes(alloc, text)?;
    for _ in 0..count {
        out.extend_from_slice(bytes.as_slice())?;
    }
    Ok(())
}

/// Parses the arguments after `run`. `""` is the empty argument, and unusual bytes are escaped.
pub fn read_words(alloc: Global, words: &mut Vec<String>, line: &str) -> Result<(), ScriptWhy> {
    for word in line.split_whitespace() {
        words.push(read_word(alloc, word)?)?;
    }
    Ok(())
}

fn read_word(alloc: Global, word: &str) -> Result<String, ScriptWhy> {
    if word == "\"\"" {
        return Ok(String::new(alloc));
    }
    match String::from_utf8(read_bytes(alloc, word)?) {
        Ok(word) => Ok(word),
        Err(_) => Err(ScriptWhy::NotText),
    }
}
