//! Checks the claim of a file.

ghost use Rattle.desk_files.specs.Check.{CheckEndsOn};

use crate::file_claim::{fetch_claim, refuse_file};
use desk_base::{Shelf, Sink};
use desk_report::{Status, print};
use desk_text::FileTask;
use desk_verdict::verdict_line;
use std::alloc::Global;

/// Checks the claim of a file, and writes within how many moves its winner mates.
pub fn check<K: Sink, H: Shelf>(
    alloc: Global,
    file: &FileTask,
    sink: &mut K,
    shelf: &mut H,
) -> Status
    ensures ends { CheckEndsOn K.Sink H.Shelf file.now result (sink, shelf) }
{
    match fetch_claim(alloc, file.name, file.budget, shelf) {
        Ok(solved) => {
            let line = verdict_line(true, solved.moves());
            print(sink, line.as_slice())
        }
        Err(why) => refuse_file(sink, why),
    }
}
