ghost use Rattle.std.specs.Prelude.{◌≡◌, ◌↔◌, ◌<◌, ◌≤◌, Some, length, drop, IfOk, OnErr, IsErr};
ghost use Rattle.std.specs.Io.KnownBytes.{ReadConsumes};
ghost use Rattle.desk_base.specs.Calls.{IsListed, no_calls};
ghost use Rattle.desk_base.specs.Faults.{HasRisen};
ghost use Rattle.desk_base.specs.Memory.{after_failed_take, after_take, take_count};

use crate::calls::CallCount;
use crate::source::{Failed, Source};
use std::marker::Model;

/// An input over bytes in memory.
#[derive(Drop)]
pub struct MemSource {
    bytes: Vec<u8>,
    at: usize,
    most: usize,
    calls: CallCount,
}

impl Model for MemSource {
    ghost use Rattle.std.specs.Prelude.{drop, vec_len, ◌≤◌, ◌<◌};
    ghost use Rattle.desk_base.specs.Memory.{Input};

    ghost Value = { Input };

    ghost view = { λ s. record { left = drop s.at s.bytes.items; most = s.most; calls = s.calls } };

    ghost invariant = { λ s. (s.at ≤ vec_len s.bytes) × (0 < s.most) };
}

impl MemSource {
    /// Creates an input of these bytes, of which one call moves at most `most`. The calls whose numbers are in `fail`,
    /// counted from 1, fail. Calls after number 2^32 - 1 have no number.
    pub fn new(bytes: Vec<u8>, fail: Vec<u32>, most: usize) -> Self
        requires { 0 < most }
        ensures { result ≡ record { left = bytes.items; most = most; calls = no_calls fail.items } }
    {
        MemSource {
            bytes,
            at: 0,
            most,
            calls: CallCount::new(fail),
        }
    }
}

impl Source for MemSource {
    ghost left = { λ s. Some s.left };

    ghost faults = { λ s. s.calls.faults };

    /// Moves as many bytes as are left, fit into the buffer, and one call may move.
    fn take(&mut self, buffer: &mut [u8]) -> Result<usize, Failed>
        ensures most { IfOk result (λ k. k ≤ length buffer.old) }
        ensures bytes { ReadConsumes (Some self.old.left) (Some self.new.left) result buffer.new }
        ensures failed { OnErr result (HasRisen self.old.calls.faults self.new.calls.faults) }
        ensures never_falls { self.old.calls.faults ≤ self.new.calls.faults }

        // Fails at the listed calls only, and counts no other fault.
        ensures listed { IsErr result ↔ IsListed self.old.calls }
        ensures count { IfOk result (λ k. k ≡ take_count self.old (length buffer.old)) }
        ensures ok { IfOk result (λ k. self.new ≡ after_take self.old k) }
        ensures err { OnErr result (self.new ≡ after_failed_take self.old) }
    {
        if self.calls.fails() {
            return Err(Failed);
        }
        let rest = &self.bytes[self.at..];
        let count = rest.len().min(buffer.len()).min(self.most);
        buffer[..count].copy_from_slice(&rest[..count]);
        self.at += count;
        Ok(count)
    }
}
