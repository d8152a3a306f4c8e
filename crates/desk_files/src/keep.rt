//! The file of the sets by which the winner mates.

ghost use Rattle.std.specs.Prelude.{◌≡◌, IsErrOf};
ghost use Rattle.desk_base.specs.Faults.{HasRisen};
ghost use Rattle.game_rules.specs.Game.{HasBothKings};
ghost use Rattle.winning_sets.specs.declared.origin.Origin.TheVariants.{Plan};
ghost use Rattle.desk_files.specs.Keep.{KeepEndsOn, kept_file};
ghost use Rattle.desk_files.specs.Keeping.{Keeps};
ghost use Rattle.desk_verdict.specs.Verdict.{IsTask};

use crate::no_file::{NoFile, refuse_keeping};
use desk_base::{Shelf, Sink};
use desk_report::{Status, print};
use desk_text::Task;
use desk_verdict::{ProblemSolver, print_error, verdict_line};
use std::alloc::Global;
use strategy_writer::write_file;
use winning_sets::Solved;

/// Stores a file of the sets by which the winner mates within the task's number of moves, under the name, and writes
/// that he does; or writes that he does not, and stores nothing.
pub fn keep<K: Sink, H: Shelf>(
    alloc: Global,
    task: &Task,
    name: &str,
    sink: &mut K,
    shelf: &mut H,
) -> Status
    requires task { IsTask task.now }
    ensures ends { KeepEndsOn K.Sink H.Shelf task.now name.now result (sink, shelf) }
{
    let mut solver = ProblemSolver::new(alloc, &task.problem, task.budget);
    match solver.mates_within(task.moves) {
        Ok(Some(solved)) => match keep_solved(alloc, &solved, name, shelf) {
            Ok(()) => {
                let line = verdict_line(true, task.moves);
                print(sink, line.as_slice())
            }
            Err(why) => refuse_keeping(sink, why),
        },
        Ok(None) => {
            let line = verdict_line(false, task.moves);
            print(sink, line.as_slice())
        }
        Err(error) => print_error(sink, error),
    }
}

/// Keeps the file of a solved position under the name. All of the file is made before the shelf is called.
fn keep_solved<H: Shelf>(
    alloc: Global,
    solved: &Solved,
    name: &str,
    shelf: &mut H,
) -> Result<(), NoFile>
    requires plan { solved.now.origin ≡ Plan }
    requires kings { HasBothKings solved.now.position }
    ensures keeps { Keeps (kept_file solved.now.winner solved.now.position solved.now.moves) name.now result (H.files shelf.old) (H.files shelf.new) }
    ensures failed { IsErrOf result NoFile.Fault → HasRisen (H.faults shelf.old) (H.faults shelf.new) }
{
    let _masks = solved.masks(); // for its invariant
    let bytes = write_file(alloc, solved)?;
    shelf.keep(alloc, name, bytes.as_slice())?;
    Ok(())
}
