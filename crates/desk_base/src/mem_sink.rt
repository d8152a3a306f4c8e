ghost use Rattle.std.specs.Prelude.{◌≡◌, ◌↔◌, ◌⊎◌, ◌<◌, ◌≤◌, length, Some, take, IfOk, OnErr, IsErr};
ghost use Rattle.std.specs.Io.KnownBytes.{WriteAppends};
ghost use Rattle.desk_base.specs.Calls.{IsListed};
ghost use Rattle.desk_base.specs.Faults.{HasRisen};
ghost use Rattle.desk_base.specs.Memory.{LacksRoom, after_failed_put, after_put, empty_output, put_count};

use crate::calls::CallCount;
use crate::sink::Sink;
use crate::source::Failed;
use std::alloc::{AllocError, Global};
use std::marker::Model;

/// An output in memory. Its room is allocated when it is made; writing allocates nothing.
#[derive(Drop)]
pub struct MemSink {
    bytes: Vec<u8>,
    most: usize,
    room: usize,
    calls: CallCount,
}

impl Model for MemSink {
    ghost use Rattle.std.specs.Prelude.{vec_len, vec_capacity, ◌≤◌, ◌<◌};
    ghost use Rattle.desk_base.specs.Memory.{Output};

    ghost Value = { Output };

    ghost view = { λ s. record { written = s.bytes.items; most = s.most; room = s.room; calls = s.calls } };

    ghost invariant = { λ s. (vec_len s.bytes ≤ s.room) × (s.room ≤ vec_capacity s.bytes) × (0 < s.most) };
}

impl MemSink {
    /// Creates an output of at most `room` bytes, of which one call writes at most `most`. The calls whose numbers are
    /// in `fail`, counted from 1, fail. Calls after number 2^32 - 1 have no number. The error is that an allocation
    /// failed.
    pub fn new(alloc: Global, fail: Vec<u32>, most: usize, room: usize) -> Result<Self, AllocError>
        requires { 0 < most }
        ensures { IfOk result (λ sink. sink ≡ empty_output most room fail.items) }
    {
        Ok(MemSink {
            bytes: Vec::with_capacity(alloc, room)?,
            most,
            room,
            calls: CallCount::new(fail),
        })
    }

    /// Returns the bytes written so far.
    pub fn bytes(&self) -> &[u8]
        ensures written { result.now ≡ self.now.written }
        ensures within { length self.now.written ≤ self.now.room }
    {
        &self.bytes
    }
}

impl Sink for MemSink {
    ghost written = { λ s. Some s.written };

    ghost faults = { λ s. s.calls.faults };

    /// Writes as many bytes of the piece as there is room for and one call may write.
    fn put(&mut self, piece: &[u8]) -> Result<usize, Failed>
        ensures most { IfOk result (λ k. k ≤ length piece.now) }
        ensures some { 0 < length piece.now → IfOk result (λ k. 0 < k) }
        ensures bytes { WriteAppends (Some self.old.written) (Some self.new.written) result piece.now }
        ensures failed { OnErr result (HasRisen self.old.calls.faults self.new.calls.faults) }
        ensures never_falls { self.old.calls.faults ≤ self.new.calls.faults }

        // Fails at the listed calls, and if its room is full and the piece is not empty; not otherwise.
        ensures fails { IsErr result ↔ (IsListed self.old.calls ⊎ LacksRoom self.old piece.now) }
        ensures count { IfOk result (λ k. k ≡ put_count self.old piece.now) }
        ensures ok { IfOk result (λ k. self.new ≡ after_put self.old (take k piece.now)) }
        ensures err { OnErr result (self.new ≡ after_failed_put self.old) }
        ensures within { length self.new.written ≤ self.new.room }
    {
        if self.calls.fails() {
            return Err(Failed);
        }
        let count = piece.len().min(self.most).min(self.room - self.bytes.len());
        if count == 0 && !piece.is_empty() {
            self.calls.add_fault();
            return Err(Failed);
        }
        self.bytes.extend_from_slice(&piece[..count]).unwrap();
        Ok(count)
    }
}
