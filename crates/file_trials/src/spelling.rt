//! Bytes, spelled by words.

ghost use Rattle.std.specs.Prelude.{◌<◌, IfOk};

use std::alloc::Global;
use trial_rows::{RowError, number};

/// Returns the value of a hexadecimal digit.
fn digit(byte: u8) -> Result<u8, RowError>
    ensures { IfOk result (λ digit. digit < 16) }
{
    match byte {
        b'0'..=b'9' => Ok(byte - b'0'),
        b'a'..=b'f' => Ok(byte - b'a' + 10),
        _ => Err(RowError::Word),
    }
}

/// The bytes of pairs of digits.
fn bytes_of(alloc: Global, digits: &[u8]) -> Result<Vec<u8>, RowError> {
    let mut bytes = Vec::new(alloc);
    for pair in digits.chunks(2) {
        match pair {
            [high, low] => {
                let byte = digit(*high)? * 16 + digit(*low)?;
                bytes.push(byte)?;
            }
            _ => return Err(RowError::Word),
        }
    }
    Ok(bytes)
}

/// Appends a piece `count` times.
fn push_often(out: &mut Vec<u8>, piece: &[u8], count: u32) -> Result<(), RowError> {
    for _ in 0..count {
        out.extend_from_slice(piece)?;
    }
    Ok(())
}

/// Appends the bytes that a word spells: pairs of digits, and after a `*` how often.
fn push_part(alloc: Global, out: &mut Vec<u8>, part: &str) -> Result<(), RowError> {
    match part.split_once('*') {
        Some((digits, count)) => {
            let piece = bytes_of(alloc, digits.as_bytes())?;
            push_often(out, piece.as_slice(), number(count)?)
        }
        None => {
            let piece = bytes_of(alloc, part.as_bytes())?;
            push_often(out, piece.as_slice(), 1)
        }
    }
}

/// Returns the bytes that the words spell, in order.
pub fn spelled(alloc: Global, words: &str) -> Result<Vec<u8>, RowError> {
    let mut out = Vec::new(alloc);
    for part in words.split(' ') {
        push_part(alloc, &mut out, part)?;
    }
    Ok(out)
}
