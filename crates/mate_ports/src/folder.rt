//! The files of the working folder as a store.

ghost use Rattle.std.specs.Prelude.{◌≡◌, ◌≢◌, ℕ, ◌<◌, ◌≤◌, None, length, IfOk, IfSome, IsErrOf};
ghost use Rattle.std.specs.IoError.{error_kind};
ghost use Rattle.std.specs.declared.io.ErrorKind.TheVariants.{OutOfMemory};

use desk_base::{FetchError, KeepError, Shelf};
use std::alloc::Global;
use std::fs::{Files, OpenFile};
use std::io::{ErrorKind, Read, Write};
use std::{fs, io};

/// The files of the working folder as a store; a file is stored under its name. The store does not expose their
/// contents. Each error of the system is a fault, except a missing file and running out of memory.
#[derive(Drop)]
pub struct FolderShelf<'a, R: Files> {
    system: &'a R,
    faults: u64,
}

impl<'a, R: Files> FolderShelf<'a, R> {
    /// Creates a store over the file system.
    pub fn new(system: &'a R) -> Self
        ensures { result.faults ≡ 0 }
    {
        FolderShelf { system, faults: 0 }
    }
}

impl<'a, R: Files> Shelf for FolderShelf<'a, R> {
    ghost files = { λ _. None };

    ghost faults = { λ s. s.faults };

    fn fetch(
        &mut self,
        alloc: Global,
        name: &str,
        limit: usize,
    ) -> Result<Option<Vec<u8>>, FetchError> {
        let answer = read_file(self.system, alloc, name, limit);
        if let Err(FetchError::Failed) = answer {
            self.faults = self.faults.saturating_add(1);
        }
        answer
    }

    /// Writes the bytes to a temporary file, whose name has a dot, which no name of a command has. Then that file
    /// replaces the old one, so that an interrupted run leaves the old file unchanged.
    fn keep(&mut self, alloc: Global, name: &str, bytes: &[u8]) -> Result<(), KeepError> {
        let beside = format!(in alloc; "{name}.new")?;
        if replace_file(self.system, name, beside.as_str(), bytes).is_err() {
            let _ = fs::remove_file(self.system, beside.as_str());
            self.faults = self.faults.saturating_add(1);
            return Err(KeepError::Failed);
        }
        Ok(())
    }
}

/// Returns the bytes of the file of this name, or `None` if there is none.
fn read_file<R: Files>(
    system: &R,
    alloc: Global,
    name: &str,
    limit: usize,
) -> Result<Option<Vec<u8>>, FetchError>
    ensures { IfOk result (λ file. IfSome file (λ bytes. length bytes.items ≤ limit)) }
{
    match fs::open(system, name) {
        Ok(file) => Ok(Some(read_whole(alloc, file, limit)?)),
        Err(error) if error.kind() == ErrorKind::NotFound => Ok(None),
        Err(error) => Err(fetch_error(error)),
    }
}

/// Returns all bytes of the reader if there are at most `limit`.
pub(crate) fn read_whole<F: Read + Drop>(
    alloc: Global,
    reader: F,
    limit: usize,
) -> Result<Vec<u8>, FetchError>
    ensures all { IfOk result (λ bytes. IfSome (F.remaining reader) (λ told. bytes.items ≡ told)) }
    ensures short { IfOk result (λ bytes. length bytes.items ≤ limit) }
    ensures too_long { IsErrOf result FetchError.TooLong → IfSome (F.remaining reader) (λ told. limit < length told) }
{
    let mut bytes = Vec::new(alloc);
    let mut front = reader.take((limit as u64).saturating_add(1));
    if let Err(error) = front.read_to_end(&mut bytes) {
        return Err(fetch_error(error));
    }
    if bytes.len() > limit {
        return Err(FetchError::TooLong);
    }
    Ok(bytes)
}

/// Returns why a file is not fetched if the system has this error.
fn fetch_error(error: io::Error) -> FetchError
    ensures memory { error_kind error ≡ OutOfMemory → result ≡ FetchError.Memory }
    ensures failed { error_kind error ≢ OutOfMemory → result ≡ FetchError.Failed }
{
    if error.kind() == ErrorKind::OutOfMemory {
        FetchError::Memory
    } else {
        FetchError::Failed
    }
}

/// Writes the bytes to the file `beside`, which then replaces the file of this name.
fn replace_file<R: Files>(system: &R, name: &str, beside: &str, bytes: &[u8]) -> io::Result<()> {
    let mut file = fs::create(system, beside)?;
    file.write_all(bytes)?;
    file.sync_all()?;
    fs::rename(system, beside, name)
}
