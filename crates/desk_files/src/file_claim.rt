//! The checked claim of a file, or why there is none.

ghost use Rattle.std.specs.Prelude.{◌≡◌, ◌≤◌, [], IsErrOf, length};
ghost use Rattle.desk_base.specs.Faults.{HasRisen};
ghost use Rattle.desk_base.specs.Files.{FilesStay};
ghost use Rattle.strategy_file.specs.Claims.{claim_of};
ghost use Rattle.strategy_file.specs.Fitting.{HasFileOf};
ghost use Rattle.desk_files.specs.FileClaim.{Fetches, IsFetched, OnFiles, ReadsFile, TellsChecked, TellsRead, no_claim_line, no_claim_status};
ghost use Rattle.desk_report.specs.Outcome.{Writes};
ghost use Rattle.desk_report.specs.Ports.{OnSink};

use crate::file_line::{byte_line, cut_line, extra_line, not_kept_line};
use chess_text::line_buffer::LineBuffer;
use claim_check::{CheckError, check};
use claim_plan::RuleAt;
use desk_base::{FetchError, Shelf, Sink};
use desk_report::{Status, refuse};
use desk_verdict::budget_line;
use limits::{Budget, MOST_FILE_BYTES};
use std::alloc::Global;
use strategy_file::{ByteWhy, Claim, FileError, read_file};
use winning_sets::{Solved, StepName};

/// Why a file gives no claim.
#[derive(Clone, Copy, PartialEq, Eq)]
pub enum NoClaim {
    /// The shelf has failed.
    Fault,
    /// There is no file of this name.
    Missing,
    /// It is longer than a file may be.
    TooLong,
    /// It ends at this offset, where more bytes are due.
    Cut(u64),
    /// The field that begins at this place is whole and wrong.
    Byte(u64, ByteWhy),
    /// Bytes follow its end, the first of them at this offset.
    Extra(u64),
    /// The first rule that the claim does not keep.
    NotKept(RuleAt),
    /// The first step of the plan that checks the claim that exceeds the budget.
    Over(StepName),
    /// There is no memory for the file or for its claim.
    Memory,
}

impl NoClaim {
    /// The line that says so.
    fn line(self) -> LineBuffer
        ensures { result ≡ no_claim_line self }
    {
        match self {
            NoClaim::Fault => text_line(b"shelf fault\n"),
            NoClaim::Missing => text_line(b"file missing\n"),
            NoClaim::TooLong => text_line(b"file too long\n"),
            NoClaim::Cut(at) => cut_line(at),
            NoClaim::Byte(at, why) => byte_line(at, why),
            NoClaim::Extra(at) => extra_line(at),
            NoClaim::NotKept(failed) => not_kept_line(failed),
            NoClaim::Over(step) => budget_line(step),
            NoClaim::Memory => text_line(b"memory\n"),
        }
    }

    /// The status of a run that ends so.
    fn status(self) -> Status
        ensures { result ≡ no_claim_status self }
    {
        match self {
            NoClaim::Fault => Status::ShelfFault,
            NoClaim::Over(_) => Status::Budget,
            NoClaim::Memory => Status::Memory,
            NoClaim::Missing
            | NoClaim::TooLong
            | NoClaim::Cut(_)
            | NoClaim::Byte(_, _)
            | NoClaim::Extra(_)
            | NoClaim::NotKept(_) => Status::File,
        }
    }
}

/// A line of this text.
fn text_line(text: &[u8]) -> LineBuffer
    requires { length text.now ≤ 128 }
    ensures { result ≡ text.now }
{
    let mut line = LineBuffer::new();
    line.push(text);
    line
}

/// Writes why there is no claim, as far as the sink accepts it, and returns the status.
pub fn refuse_file<K: Sink>(sink: &mut K, why: NoClaim) -> Status
    ensures status { result ≡ no_claim_status why }
    ensures written { OnSink K.Sink (Writes [] (no_claim_line why)) sink.old sink.new }
    ensures never_falls { K.faults sink.old ≤ K.faults sink.new }
{
    let line = why.line();
    refuse(sink, line.as_slice());
    why.status()
}

/// Fetches the file of this name and returns its claim, with its sets, if all rules are true of it.
pub fn fetch_claim<H: Shelf>(
    alloc: Global,
    name: &str,
    budget: Budget,
    shelf: &mut H,
) -> Result<Solved, NoClaim>
    ensures fetches { OnFiles (H.files shelf.old) (λ files. Fetches budget name.now files result) }
    ensures same { FilesStay (H.files shelf.old) (H.files shelf.new) }
    ensures failed { IsErrOf result NoClaim.Fault → HasRisen (H.faults shelf.old) (H.faults shelf.new) }
{
    let claim = fetch_file(alloc, name, shelf)?;
    check_claim(alloc, claim, budget)
}

/// Fetches the file of this name and returns its claim without checking it.
pub(crate) fn fetch_file<H: Shelf>(
    alloc: Global,
    name: &str,
    shelf: &mut H,
) -> Result<Claim, NoClaim>
    ensures reads { OnFiles (H.files shelf.old) (λ files. ReadsFile name.now files result) }
    ensures same { FilesStay (H.files shelf.old) (H.files shelf.new) }
    ensures failed { IsErrOf result NoClaim.Fault → HasRisen (H.faults shelf.old) (H.faults shelf.new) }
    ensures never_falls { H.faults shelf.old ≤ H.faults shelf.new }
{
    let bytes = fetch(alloc, name, shelf)?;
    read_claim(alloc, bytes)
}

/// The bytes of the file of this name.
fn fetch<H: Shelf>(alloc: Global, name: &str, shelf: &mut H) -> Result<Vec<u8>, NoClaim>
    ensures fetched { OnFiles (H.files shelf.old) (λ files. IsFetched name.now files result) }
    ensures same { FilesStay (H.files shelf.old) (H.files shelf.new) }
    ensures failed { IsErrOf result NoClaim.Fault → HasRisen (H.faults shelf.old) (H.faults shelf.new) }
    ensures never_falls { H.faults shelf.old ≤ H.faults shelf.new }
{
    match shelf.fetch(alloc, name, MOST_FILE_BYTES) {
        Ok(Some(bytes)) => Ok(bytes),
        Ok(None) => Err(NoClaim::Missing),
        Err(FetchError::Failed) => Err(NoClaim::Fault),
        Err(FetchError::TooLong) => Err(NoClaim::TooLong),
        Err(FetchError::Memory) => Err(NoClaim::Memory),
    }
}

/// Returns the claim of the bytes, which are dropped then.
fn read_claim(alloc: Global, bytes: Vec<u8>) -> Result<Claim, NoClaim>
    ensures reads { TellsRead bytes.items result }
{
    match read_file(alloc, bytes.as_slice()) {
        Ok(claim) => Ok(claim),
        Err(FileError::Cut { at }) => Err(NoClaim::Cut(at)),
        Err(FileError::Byte { at, why }) => Err(NoClaim::Byte(at, why)),
        Err(FileError::Extra { at }) => Err(NoClaim::Extra(at)),
        Err(FileError::Memory) => Err(NoClaim::Memory),
    }
}

/// The claim with its sets, once it is known to keep all rules.
fn check_claim(alloc: Global, claim: Claim, budget: Budget) -> Result<Solved, NoClaim>
    requires claim { HasFileOf (claim_of claim) }
    ensures checks { TellsChecked (claim_of claim) budget result }
{
    match check(alloc, claim, budget) {
        Ok(solved) => Ok(solved),
        Err(CheckError::NotKept(failed)) => Err(NoClaim::NotKept(failed)),
        Err(CheckError::Over(step)) => Err(NoClaim::Over(step)),
        Err(CheckError::Memory) => Err(NoClaim::Memory),
    }
}
