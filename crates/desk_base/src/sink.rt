ghost use Rattle.std.specs.Prelude.{ℕ, ◌<◌, ◌≤◌, List, Option, length, IfOk, OnOk, OnErr};
ghost use Rattle.std.specs.Io.KnownBytes.{Appends, WriteAppends};
ghost use Rattle.desk_base.specs.Faults.{HasRisen};
ghost use Rattle.desk_base.specs.Moves.{AppendsFront};

use crate::source::Failed;

/// An output for bytes.
pub trait Sink {
    /// The bytes written so far; `None` if the output does not expose them.
    ghost written: { Self → Option (List ℕ) };

    /// The number of failures so far. It never falls, and stays at 2^64 - 1 once it is there. An output whose type
    /// always counts 0 cannot fail.
    ghost faults: { Self → ℕ };

    /// Appends a prefix of the piece and returns its length, which is not 0 unless the piece is empty.
    fn put(&mut self, piece: &[u8]) -> Result<usize, Failed>
        ensures most { IfOk result (λ k. k ≤ length piece.now) }
        ensures some { 0 < length piece.now → IfOk result (λ k. 0 < k) }
        ensures bytes { WriteAppends (written self.old) (written self.new) result piece.now }
        ensures failed { OnErr result (HasRisen (faults self.old) (faults self.new)) }
        ensures never_falls { faults self.old ≤ faults self.new };
}

/// Writes all the bytes. If the output fails, a proper prefix of them has been written.
pub fn put_all<K: Sink>(sink: &mut K, bytes: &[u8]) -> Result<(), Failed>
    ensures all { OnOk result (Appends (K.written sink.old) (K.written sink.new) bytes.now) }
    ensures err { OnErr result (AppendsFront (K.written sink.old) (K.written sink.new) bytes.now) }
    ensures failed { OnErr result (HasRisen (K.faults sink.old) (K.faults sink.new)) }
    ensures never_falls { K.faults sink.old ≤ K.faults sink.new }
{
    let mut sent = 0;
    while sent < bytes.len() {
        sent += sink.put(&bytes[sent..])?;
    }
    Ok(())
}
