//! A byte slice as an input.

ghost use Rattle.std.specs.Prelude.{Some};

use crate::source::{Failed, Source};
use std::io::Read;

/// The bytes of the slice, which afterwards starts after the bytes taken. It does not fail.
impl Source for &[u8] {
    ghost left = { λ s. Some s.now };

    ghost faults = { λ _. 0 };

    fn take(&mut self, buffer: &mut [u8]) -> Result<usize, Failed> {
        match self.read(buffer) {
            Ok(count) => Ok(count),
            Err(_) => Err(Failed),
        }
    }
}
