ghost use Rattle.std.specs.Prelude.{◌≡◌, ℕ, ◌+◌, ◌<◌, ◌≤◌, List, [], length, take, drop, IfOk, OnOk, OnErr};
ghost use Rattle.std.specs.Io.KnownBytes.{IsAtEnd, Keeps};
ghost use Rattle.desk_base.specs.Failing.{SourceFailed};
ghost use Rattle.desk_base.specs.Moves.{Grows};

use crate::source::{Failed, Source};
use limits::MOST_LINE_BYTES;
use std::marker::Model;

/// The capacity of a buffer in bytes.
const BUFFER_SIZE: usize = 256;

/// Bytes that were taken from a source and are not used yet. They are used from the front, and others are added at the
/// end.
#[derive(Drop)]
pub struct Buffer {
    items: [u8; BUFFER_SIZE],
    start: usize,
    end: usize,
}

impl Model for Buffer {
    ghost use Rattle.std.specs.Prelude.{ℕ, List, ◌≤◌, take, drop};

    ghost Value = { List ℕ };

    ghost view = { λ b. drop b.start (take b.end b.items) };

    ghost invariant = { λ b. (b.start ≤ b.end) × (b.end ≤ 256) };
}

impl Buffer {
    /// Creates an empty buffer.
    pub fn new() -> Self
        ensures { result ≡ [] }
    {
        Buffer {
            items: [0; BUFFER_SIZE],
            start: 0,
            end: 0,
        }
    }

    /// Returns the bytes that are not used yet.
    pub fn as_slice(&self) -> &[u8]
        ensures bytes { result.now ≡ self.now }
        ensures within { length self.now ≤ 256 }
    {
        &self.items[self.start..self.end]
    }

    /// Drops the first `count` bytes.
    pub fn advance(&mut self, count: usize)
        requires { count ≤ length self.old }
        ensures { self.new ≡ drop count self.old }
    {
        self.start += count;
    }

    /// Takes more bytes from the source and returns their number, 0 at the end of the input.
    pub fn fill<S: Source>(&mut self, source: &mut S) -> Result<usize, Failed>
        requires { length self.old < 256 }
        ensures most { IfOk result (λ k. length self.new ≡ length self.old + k) }
        ensures within { length self.new ≤ 256 }
        ensures front { take (length self.old) self.new ≡ self.old }
        ensures taken { OnOk result (Grows self.old self.new (S.left source.old) (S.left source.new)) }
        ensures end { result ≡ Ok 0 → (self.new ≡ self.old) × IsAtEnd (S.left source.new) }
        ensures err { OnErr result ((self.new ≡ self.old) × Keeps (S.left source.old) (S.left source.new)) }
        ensures failed { OnErr result (SourceFailed S.Source source.old source.new) }
        ensures never_falls { S.faults source.old ≤ S.faults source.new }
    {
        self.end = move_to_front(&mut self.items[..], self.start, self.end);
        self.start = 0;
        let items = &mut self.items[..];
        let count = source.take(&mut items[self.end..])?;
        self.end += count;
        Ok(count)
    }
}

/// Moves the items from `start` to `end` to the front and returns their number.
fn move_to_front(items: &mut [u8], start: usize, end: usize) -> usize
    requires order { start ≤ end }
    requires within { end ≤ length items.old }
    ensures count { result + start ≡ end }
    ensures front { take result items.new ≡ drop start (take end items.old) }
{
    if start > 0 {
        items.copy_within(start..end, 0);
    }
    end - start
}

/// The bytes of one line.
#[derive(Drop)]
pub struct LineBytes {
    items: [u8; MOST_LINE_BYTES],
    len: usize,
}

impl Model for LineBytes {
    ghost use Rattle.limits.specs.declared.numbers.TheConstants.{MOST_LINE_BYTES};
    ghost use Rattle.std.specs.Prelude.{ℕ, List, ◌≤◌, take};

    ghost Value = { List ℕ };

    ghost view = { λ b. take b.len b.items };

    ghost invariant = { λ b. b.len ≤ MOST_LINE_BYTES };
}

impl LineBytes {
    /// Creates an empty line.
    pub fn new() -> Self
        ensures { result ≡ [] }
    {
        LineBytes {
            items: [0; MOST_LINE_BYTES],
            len: 0,
        }
    }

    /// Returns the bytes of the line.
    pub fn as_slice(&self) -> &[u8]
        ensures { result.now ≡ self.now }
    {
        &self.items[..self.len]
    }

    /// Replaces the line by these bytes.
    pub fn set(&mut self, bytes: &[u8])
        requires { length bytes.now ≤ MOST_LINE_BYTES }
        ensures { self.new ≡ bytes.now }
    {
        self.items[..bytes.len()].copy_from_slice(bytes);
        self.len = bytes.len();
    }
}
