//! Writes the claim of a file in the newest version.

ghost use Rattle.std.specs.Prelude.{IsErrOf};
ghost use Rattle.desk_base.specs.Faults.{HasRisen};
ghost use Rattle.strategy_file.specs.Claims.{claim_of};
ghost use Rattle.strategy_file.specs.Fitting.{HasFileOf};
ghost use Rattle.desk_files.specs.Keeping.{Keeps};
ghost use Rattle.desk_files.specs.Migrate.{MigrateEndsOn, migrated_file};

use crate::file_claim::{fetch_file, refuse_file};
use crate::no_file::{NoFile, refuse_keeping};
use desk_base::{Shelf, Sink};
use desk_report::{Status, print};
use std::alloc::Global;
use strategy_file::Claim;
use strategy_writer::write_claim;

/// Reads a file of either version, and stores its claim in the newest version under another name, or under the same.
/// The claim is not checked.
pub fn migrate<K: Sink, H: Shelf>(
    alloc: Global,
    from: &str,
    to: &str,
    sink: &mut K,
    shelf: &mut H,
) -> Status
    ensures ends { MigrateEndsOn K.Sink H.Shelf from.now to.now result (sink, shelf) }
{
    let claim = match fetch_file(alloc, from, shelf) {
        Ok(claim) => claim,
        Err(why) => return refuse_file(sink, why),
    };
    match keep_claim(alloc, &claim, to, shelf) {
        Ok(()) => print(sink, b"migrated\n"),
        Err(why) => refuse_keeping(sink, why),
    }
}

/// Keeps the file of a claim under the name. All of the file is made before the shelf is called.
fn keep_claim<H: Shelf>(
    alloc: Global,
    claim: &Claim,
    name: &str,
    shelf: &mut H,
) -> Result<(), NoFile>
    requires claim { HasFileOf (claim_of claim.now) }
    ensures keeps { Keeps (migrated_file (claim_of claim.now)) name.now result (H.files shelf.old) (H.files shelf.new) }
    ensures failed { IsErrOf result NoFile.Fault → HasRisen (H.faults shelf.old) (H.faults shelf.new) }
{
    let bytes = write_claim(alloc, claim)?;
    shelf.keep(alloc, name, bytes.as_slice())?;
    Ok(())
}
