ghost use Rattle.std.specs.Prelude.{◌≡◌, ℕ, ◌≤◌, Option, length, IfOk, OnOk, IsErrOf, IfSome};
ghost use Rattle.std.specs.FinMap as map;
ghost use Rattle.desk_base.specs.Files.{Files, FilesGain, FilesStay, MayHaveFileOver, OtherFilesStay, contents};
ghost use Rattle.desk_base.specs.Faults.{HasRisen};

use std::alloc::{AllocError, Global};
use thiserror::Error;

/// Why a file was not fetched.
#[derive(Clone, Copy, Debug, PartialEq, Eq, Error)]
pub enum FetchError {
    /// The store failed.
    #[error("the store of files has failed")]
    Failed,
    /// The file is longer than the caller's limit.
    #[error("the file is too long")]
    TooLong,
    /// Out of memory.
    #[error("out of memory")]
    Memory,
}

/// Why a file was not stored.
#[derive(Clone, Copy, Debug, PartialEq, Eq, Error)]
pub enum KeepError {
    /// The store failed.
    #[error("the store of files has failed")]
    Failed,
    /// Out of memory.
    #[error("out of memory")]
    Memory,
}

impl From<AllocError> for FetchError {
    ghost use Rattle.std.specs.Prelude.{◌≡◌};
    ghost use Rattle.desk_base.specs.declared.files.FetchError.TheVariants.{Memory};

    ghost from_gives = { λ _ why. why ≡ Memory };

    fn from(_error: AllocError) -> Self {
        FetchError::Memory
    }
}

impl From<AllocError> for KeepError {
    ghost use Rattle.std.specs.Prelude.{◌≡◌};
    ghost use Rattle.desk_base.specs.declared.files.KeepError.TheVariants.{Memory};

    ghost from_gives = { λ _ why. why ≡ Memory };

    fn from(_error: AllocError) -> Self {
        KeepError::Memory
    }
}

/// A store of files by name.
pub trait Shelf {
    /// The files, by the bytes of their names; `None` if the store does not expose them.
    ghost files: { Self → Option Files };

    /// The number of failures so far. It never falls, and stays at 2^64 - 1 once it is there. A store whose type always
    /// counts 0 cannot fail.
    ghost faults: { Self → ℕ };

    /// Returns the bytes of the file of this name, or `None` if there is none. A file of more than `limit` bytes is too
    /// long.
    fn fetch(
        &mut self,
        alloc: Global,
        name: &str,
        limit: usize,
    ) -> Result<Option<Vec<u8>>, FetchError>
        ensures found { IfOk result (λ file. IfSome (files self.old) (λ kept. contents file ≡ map.get kept name.now)) }
        ensures short { IfOk result (λ file. IfSome file (λ bytes. length bytes.items ≤ limit)) }
        ensures too_long { IsErrOf result FetchError.TooLong → MayHaveFileOver (files self.old) name.now limit }
        ensures same { FilesStay (files self.old) (files self.new) }
        ensures failed { IsErrOf result FetchError.Failed → HasRisen (faults self.old) (faults self.new) }
        ensures never_falls { faults self.old ≤ faults self.new };

    /// Stores the bytes under the name, in place of its old contents. If the store fails, the contents of that file are
    /// unknown, and every other file is unchanged.
    fn keep(&mut self, alloc: Global, name: &str, bytes: &[u8]) -> Result<(), KeepError>
        ensures kept { OnOk result (FilesGain (files self.old) (files self.new) name.now bytes.now) }
        ensures others { IsErrOf result KeepError.Failed → OtherFilesStay (files self.old) (files self.new) name.now }
        ensures memory { IsErrOf result KeepError.Memory → FilesStay (files self.old) (files self.new) }
        ensures failed { IsErrOf result KeepError.Failed → HasRisen (faults self.old) (faults self.new) }
        ensures never_falls { faults self.old ≤ faults self.new };
}
