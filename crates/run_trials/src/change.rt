//! Changes of bytes.

ghost use Rattle.std.specs.Prelude.{◌≡◌, ◌↔◌, IsTrue, OnOk, OnErr};
ghost use Rattle.run_trials.specs.Changes.{Fits, changed};

use crate::fault::ScriptWhy;
use crate::number::read_number;
use std::alloc::AllocError;

/// A change of the bytes of an input, or of a file that stays from run to run.
#[derive(Clone, Copy)]
pub enum Change {
    /// Only the first `length` bytes stay.
    Cut { length: usize },
    /// The byte at this place, counted from 0, becomes this one.
    Byte { at: usize, value: u8 },
    /// This byte is appended.
    Append { value: u8 },
}

impl Change {
    /// Returns whether the change can be made: the bytes have the byte, or at least as many bytes as remain.
    pub fn fits(self, bytes: &[u8]) -> bool
        ensures { IsTrue result ↔ Fits self bytes.now }
    {
        match self {
            Change::Cut { length } => length <= bytes.len(),
            Change::Byte { at, .. } => at < bytes.len(),
            Change::Append { .. } => true,
        }
    }

    /// Changes the bytes.
    pub fn apply(self, bytes: &mut Vec<u8>) -> Result<(), AllocError>
        requires { Fits self bytes.old.items }
        ensures ok { OnOk result (bytes.new.items ≡ changed self bytes.old.items) }
        ensures err { OnErr result (bytes.new.items ≡ bytes.old.items) }
    {
        match self {
            Change::Cut { length } => bytes.truncate(length),
            Change::Byte { at, value } => bytes[at] = value,
            Change::Append { value } => bytes.push(value)?,
        }
        Ok(())
    }
}

/// Changes the bytes if the change can be made.
pub fn change_bytes(change: Change, bytes: &mut Vec<u8>) -> Result<(), ScriptWhy>
    ensures ok { OnOk result (Fits change bytes.old.items × (bytes.new.items ≡ changed change bytes.old.items)) }
    ensures err { OnErr result (bytes.new.items ≡ bytes.old.items) }
{
    if !change.fits(bytes.as_slice()) {
        return Err(ScriptWhy::Outside);
    }
    change.apply(bytes)?;
    Ok(())
}

/// Parses a change: `cut at K`, `byte K is V` or `append V`.
pub fn read_change(text: &str) -> Result<Change, ScriptWhy> {
    if let Some(length) = text.strip_prefix("cut at ") {
        let length = read_number(length)?;
        return Ok(Change::Cut { length });
    }
    if let Some(value) = text.strip_prefix("append ") {
        let value = read_number(value)?;
        return Ok(Change::Append { value });
    }
    read_byte_change(text)
}

/// `byte K is V`.
fn read_byte_change(text: &str) -> Result<Change, ScriptWhy> {
    let Some((place, value)) = text.split_once(" is ") else {
        return Err(ScriptWhy::Unknown);
    };
    let Some(at) = place.strip_prefix("byte ") else {
        return Err(ScriptWhy::Unknown);
    };
    let at = read_number(at)?;
    let value = read_number(value)?;
    Ok(Change::Byte { at, value })
}
