ghost use Rattle.std.specs.Prelude.{ℕ, ◌≤◌, List, Option, length, IfOk, OnErr};
ghost use Rattle.std.specs.Io.KnownBytes.{ReadConsumes};
ghost use Rattle.desk_base.specs.Faults.{HasRisen};

/// The object failed, and its count of faults has risen.
#[derive(Clone, Copy, PartialEq, Eq)]
pub struct Failed;

/// An input of bytes.
pub trait Source {
    /// The bytes still to come; `None` if the input does not expose them.
    ghost left: { Self → Option (List ℕ) };

    /// The number of failures so far. It never falls, and stays at 2^64 - 1 once it is there. An input whose type
    /// always counts 0 cannot fail.
    ghost faults: { Self → ℕ };

    /// Moves the next bytes to the front of the buffer and returns their number. 0 for a buffer that is not empty means
    /// the end of the input. The bytes after them in the buffer are unspecified.
    fn take(&mut self, buffer: &mut [u8]) -> Result<usize, Failed>
        ensures most { IfOk result (λ k. k ≤ length buffer.old) }
        ensures bytes { ReadConsumes (left self.old) (left self.new) result buffer.new }
        ensures failed { OnErr result (HasRisen (faults self.old) (faults self.new)) }
        ensures never_falls { faults self.old ≤ faults self.new };
}
