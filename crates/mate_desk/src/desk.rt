//! The top-level function.

ghost use Rattle.std.specs.Prelude.{◌≡◌};
ghost use Rattle.desk_args.specs.Order.{IsWithinLimits, as_order, texts};
ghost use Rattle.mate_desk.specs.Report.{ReadsNoText, UsesNoShelf};
ghost use Rattle.mate_desk.specs.Run.{OrderEndsOn, RunEndsOn, WhereNoOrderOr, WhereOrder};

use crate::show::show;
use chess_game::soundness;
use desk_args::{Asked, TextOrder, order_of};
use desk_base::{LineReader, Shelf, Sink, Source};
use desk_crowd::crowd::crowd;
use desk_describe::describe::describe;
use desk_files::check::check;
use desk_files::keep::keep;
use desk_files::migrate::migrate;
use desk_formula::arith::arith;
use desk_games::defend::defend;
use desk_games::play::play;
use desk_games::resume::resume;
use desk_report::{Status, refusal_line, refuse, unsound_line};
use desk_solve::decide::decide;
use desk_solve::drill::drill;
use desk_solve::first::first;
use desk_solve::least::least;
use desk_text::{FileTask, TextEnd, read_problem};
use std::alloc::Global;

/// Executes the command that the arguments name, and writes the answer to the sink.
///
/// The source has a position text with replies after it, a crowd text, or a formula as a line; or the command reads a
/// strategy file from the shelf.
///
/// Errors are checked in this order: the arguments; the text, line by line; whether its position is sound; the sets,
/// the files and the answer. The first refusal ends the run with its one fault line. If that line cannot be written,
/// the status is still that of the refusal.
pub fn run<S: Source, K: Sink, H: Shelf>(
    alloc: Global,
    words: &Vec<String>,
    source: &mut S,
    sink: &mut K,
    shelf: &mut H,
) -> Status
    // The bare name of a port stands for its state before and after.
    ensures ends { RunEndsOn S.Source K.Sink H.Shelf (texts words.now.items) result (source, sink, shelf) }
    // If the arguments are not a command, nothing is read.
    ensures nothing_read { result ≡ Status.Usage → source.new ≡ source.old }
    // Nothing is read by a command that reads neither a text nor lines.
    ensures no_text_read { WhereOrder (texts words.now.items) ReadsNoText (source.new ≡ source.old) }
    // The shelf is not called if the arguments are not a command, or name one that uses no file.
    ensures shelf_untouched { WhereNoOrderOr (texts words.now.items) UsesNoShelf (shelf.new ≡ shelf.old) }
{
    let order = match order_of(words) {
        Ok(order) => order,
        Err(why) => {
            refuse(sink, why.line());
            return Status::Usage;
        }
    };
    match order.asked(words) {
        Asked::Text(order) => answer(alloc, order, source, sink, shelf),
        Asked::Crowd { moves, budget } => crowd(alloc, moves, budget, source, sink),
        Asked::Check { name, budget } => check(alloc, &FileTask { name, budget }, sink, shelf),
        Asked::Resume { name, budget } => {
            resume(alloc, &FileTask { name, budget }, source, sink, shelf)
        }
        Asked::Migrate { from, to } => migrate(alloc, from, to, sink, shelf),
        Asked::Drill { seed, count } => drill(alloc, seed, count, sink),
        Asked::Arith { budget } => arith(alloc, budget, source, sink),
    }
}

/// Executes a command on the position text at the front of the source and the lines after it.
fn answer<S: Source, K: Sink, H: Shelf>(
    alloc: Global,
    order: TextOrder,
    source: &mut S,
    sink: &mut K,
    shelf: &mut H,
) -> Status
    requires { IsWithinLimits (as_order order) }
    ensures ends { OrderEndsOn S.Source K.Sink H.Shelf order.entry result (source, sink, shelf) }
    ensures shelf_untouched { UsesNoShelf (as_order order.entry) → shelf.new ≡ shelf.old }
{
    let mut reader = LineReader::new();
    let problem = match read_problem(&mut reader, source) {
        Ok(problem) => problem,
        Err(TextEnd::Fault) => {
            refuse(sink, b"read fault\n");
            return Status::ReadFault;
        }
        Err(TextEnd::Refused(number, why)) => {
            let line = refusal_line(number, why);
            refuse(sink, line.as_slice());
            return Status::Text;
        }
    };
    if let Err(why) = soundness(&problem.position) {
        let line = unsound_line(why);
        refuse(sink, line.as_slice());
        return Status::Unsound;
    }
    match order {
        TextOrder::Decide { moves, budget } => decide(alloc, &problem.task(moves, budget), sink),
        TextOrder::Least { limit, budget } => least(alloc, &problem.task(limit, budget), sink),
        TextOrder::First { moves, budget } => first(alloc, &problem.task(moves, budget), sink),
        TextOrder::Describe { moves, budget } => {
            describe(alloc, &problem.task(moves, budget), sink)
        }
        TextOrder::Play { moves, budget } => {
            let task = problem.task(moves, budget);
            play(alloc, &task, &mut reader, source, sink)
        }
        TextOrder::Defend { moves, budget } => {
            let task = problem.task(moves, budget);
            defend(alloc, &task, &mut reader, source, sink)
        }
        TextOrder::Keep {
            moves,
            budget,
            name,
        } => keep(alloc, &problem.task(moves, budget), name, sink, shelf),
        TextOrder::Show => show(alloc, &problem, sink),
    }
}
