//! Files in memory.

ghost use Rattle.std.specs.Prelude.{◌≡◌, ◌↔◌, ◌≤◌, Some, length, string_bytes, option_copied, IfOk, OnOk, OnErr, IsErrOf, IfSome};
ghost use Rattle.std.specs.FinMap as map;
ghost use Rattle.desk_base.specs.Files.{HasFileOver, HasFileWithin, contents, no_files};

use crate::files::{FetchError, KeepError, Shelf};
use std::alloc::{AllocError, Global};
use std::collections::BTreeMap;
use std::marker::Model;

/// A file store in memory that does not fail.
#[derive(Drop)]
pub struct MemFiles {
    files: BTreeMap<String, Vec<u8>>,
}

impl Model for MemFiles {
    ghost use Rattle.desk_base.specs.Files.{Files, files_code, files_of};

    ghost Value = { Files };

    ghost coded = { files_code };

    ghost view = { λ s. files_of s.files.entries };
}

impl MemFiles {
    /// Creates an empty store.
    pub fn new(alloc: Global) -> Self
        ensures { result ≡ no_files }
    {
        MemFiles {
            files: BTreeMap::new(alloc),
        }
    }

    /// Returns the bytes of the file of this name, or `None` if there is none.
    pub fn file(&self, name: &str) -> Option<&[u8]>
        ensures { option_copied result ≡ map.get self.now name.now }
    {
        match self.files.get(name) {
            Some(bytes) => Some(bytes.as_slice()),
            None => None,
        }
    }

    /// Stores the bytes under the name, in place of its old contents. The error is that an allocation failed.
    pub fn set_file(&mut self, name: String, bytes: Vec<u8>) -> Result<(), AllocError>
        ensures ok { OnOk result (self.new ≡ map.insert self.old (string_bytes name) bytes.items) }
        ensures err { OnErr result (self.new ≡ self.old) }
    {
        let _ = self.files.insert(name, bytes)?;
        Ok(())
    }
}

impl Shelf for MemFiles {
    ghost files = { λ s. Some s };

    ghost faults = { λ _. 0 };

    fn fetch(
        &mut self,
        alloc: Global,
        name: &str,
        limit: usize,
    ) -> Result<Option<Vec<u8>>, FetchError>
        ensures found { IfOk result (λ file. contents file ≡ map.get self.old name.now) }
        ensures short { IfOk result (λ file. IfSome file (λ bytes. length bytes.items ≤ limit)) }
        ensures same { self.new ≡ self.old }
        ensures sure { ¬ IsErrOf result FetchError.Failed }

        // A file is too long if and only if it exceeds the limit; a fetch runs out of memory only if the file is short
        // enough.
        ensures too_long { IsErrOf result FetchError.TooLong ↔ HasFileOver self.old name.now limit }
        ensures memory { IsErrOf result FetchError.Memory → HasFileWithin self.old name.now limit }
    {
        let Some(bytes) = self.file(name) else {
            return Ok(None);
        };
        if bytes.len() > limit {
            return Err(FetchError::TooLong);
        }
        Ok(Some(Vec::from_slice(alloc, bytes)?))
    }

    /// If memory runs out, no file changes.
    fn keep(&mut self, alloc: Global, name: &str, bytes: &[u8]) -> Result<(), KeepError>
        ensures kept { OnOk result (self.new ≡ map.insert self.old name.now bytes.now) }
        ensures err { OnErr result (self.new ≡ self.old) }
        ensures sure { ¬ IsErrOf result KeepError.Failed }
    {
        let name = String::from_str(alloc, name)?;
        let bytes = Vec::from_slice(alloc, bytes)?;
        self.set_file(name, bytes)?;
        Ok(())
    }
}
