ghost use Rattle.std.specs.Prelude.{◌≡◌, ◌↔◌, ◌≤◌, Some, length, string_bytes, option_copied, IfOk, OnOk, OnErr, IsErrOf, IfSome};
ghost use Rattle.std.specs.FinMap as map;
ghost use Rattle.desk_base.specs.Calls.{IsListed, no_calls, one_more};
ghost use Rattle.desk_base.specs.Faults.{HasRisen};
ghost use Rattle.desk_base.specs.Files.{HasFileWithin, contents, no_files};
ghost use Rattle.desk_base.specs.Memory.{FindsFileOver, after_call, after_failed_call, with_file};

use crate::calls::CallCount;
use crate::files::{FetchError, KeepError, Shelf};
use crate::mem_files::MemFiles;
use std::alloc::{AllocError, Global};
use std::marker::Model;

/// A file store in memory, some of whose calls fail on purpose.
#[derive(Drop)]
pub struct MemShelf {
    files: MemFiles,
    calls: CallCount,
}

impl Model for MemShelf {
    ghost use Rattle.desk_base.specs.Memory.{Store, store_code};

    ghost Value = { Store };

    ghost coded = { store_code };

    ghost view = { λ s. record { files = s.files; calls = s.calls } };
}

impl MemShelf {
    /// Creates an empty store. The calls of `fetch` and `keep` whose numbers are in `fail` fail; both kinds of calls
    /// are counted together, from 1. Calls after number 2^32 - 1 have no number.
    pub fn new(alloc: Global, fail: Vec<u32>) -> Self
        ensures { result ≡ record { files = no_files; calls = no_calls fail.items } }
    {
        MemShelf {
            files: MemFiles::new(alloc),
            calls: CallCount::new(fail),
        }
    }

    /// Returns the bytes of the file of this name, or `None` if there is none. Counts no call.
    pub fn file(&self, name: &str) -> Option<&[u8]>
        ensures { option_copied result ≡ map.get self.now.files name.now }
    {
        self.files.file(name)
    }

    /// Stores the bytes under the name, in place of its old contents. Counts no call. The error is that an allocation
    /// failed.
    pub fn set_file(&mut self, name: String, bytes: Vec<u8>) -> Result<(), AllocError>
        ensures ok { OnOk result (self.new ≡ with_file self.old (string_bytes name) bytes.items) }
        ensures err { OnErr result (self.new ≡ self.old) }
    {
        self.files.set_file(name, bytes)
    }
}

impl Shelf for MemShelf {
    ghost files = { λ s. Some s.files };

    ghost faults = { λ s. s.calls.faults };

    fn fetch(
        &mut self,
        alloc: Global,
        name: &str,
        limit: usize,
    ) -> Result<Option<Vec<u8>>, FetchError>
        ensures found { IfOk result (λ file. contents file ≡ map.get self.old.files name.now) }
        ensures short { IfOk result (λ file. IfSome file (λ bytes. length bytes.items ≤ limit)) }
        ensures same { self.new.files ≡ self.old.files }
        ensures failed { IsErrOf result FetchError.Failed → HasRisen self.old.calls.faults self.new.calls.faults }
        ensures never_falls { self.old.calls.faults ≤ self.new.calls.faults }

        // Fails at the listed calls only, and counts no other fault.
        ensures listed { IsErrOf result FetchError.Failed ↔ IsListed self.old.calls }
        ensures failing { IsListed self.old.calls → self.new ≡ after_failed_call self.old }
        ensures passing { ¬ IsListed self.old.calls → self.new ≡ after_call self.old }

        // At every other call a file is too long if and only if it exceeds the limit; a fetch runs out of memory only
        // if the file is short enough.
        ensures too_long { IsErrOf result FetchError.TooLong ↔ FindsFileOver self.old name.now limit }
        ensures memory { IsErrOf result FetchError.Memory → HasFileWithin self.old.files name.now limit }
    {
        if self.calls.fails() {
            return Err(FetchError::Failed);
        }
        self.files.fetch(alloc, name, limit)
    }

    /// If the call fails, or memory runs out, no file changes.
    fn keep(&mut self, alloc: Global, name: &str, bytes: &[u8]) -> Result<(), KeepError>
        ensures kept { OnOk result (self.new.files ≡ map.insert self.old.files name.now bytes.now) }
        ensures err { OnErr result (self.new.files ≡ self.old.files) }
        ensures failed { IsErrOf result KeepError.Failed → HasRisen self.old.calls.faults self.new.calls.faults }
        ensures never_falls { self.old.calls.faults ≤ self.new.calls.faults }

        // Fails at the listed calls only, and counts no other fault.
        ensures listed { IsErrOf result KeepError.Failed ↔ IsListed self.old.calls }
        ensures failing { IsListed self.old.calls → self.new ≡ after_failed_call self.old }
        ensures passing { ¬ IsListed self.old.calls → self.new.calls ≡ one_more self.old.calls }
    {
        if self.calls.fails() {
            return Err(KeepError::Failed);
        }
        self.files.keep(alloc, name, bytes)
    }
}
