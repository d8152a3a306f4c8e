//! The winner's first moves, ray by ray.

ghost use Rattle.std.specs.Prelude.{◌≡◌, ◌↔◌, ◌≤◌, ◌+◌, ◌++◌, IfOk, IsTrue, OnOk, length};
ghost use Rattle.winning_sets.specs.declared.origin.Origin.TheVariants.{Plan};
ghost use Rattle.desk_solve.specs.First.{Adds, AreLines, FirstReports, HasNoFirstMove, IsServed, ManText, MayMoveFirst, MenText, OfSolved, RayText, line_of};
ghost use Rattle.desk_solve.specs.First as specs;
ghost use Rattle.desk_report.specs.Ports.{EndsOnSink};
ghost use Rattle.desk_verdict.specs.Verdict.{IsTask, OfTask};

use auto_search::{Few, Search};
use chess_game::{Frame, Position, ray_count};
use chess_text::line_buffer::LineBuffer;
use desk_base::Sink;
use desk_report::{Status, print, push_large};
use desk_text::Task;
use desk_verdict::{ProblemSolver, print_error};
use move_choice::has_ray;
use std::alloc::{AllocError, Global};
use winner_session::{FirstLine, first_moves};
use winning_sets::{SolveError, Solved};

/// Writes, for each man and ray, the winner's first moves along it after which he mates in time, and a last line. The
/// whole text is computed before the first byte is written.
pub fn first<K: Sink>(alloc: Global, task: &Task, sink: &mut K) -> Status
    requires { IsTask task.now }
    ensures ends { EndsOnSink K.Sink result (OfTask FirstReports task.now) (MayMoveFirst task.now) sink.old sink.new }
{
    if has_no_first_move(task) {
        return print(sink, b"end\n");
    }
    let mut solver = ProblemSolver::new(alloc, &task.problem, task.budget);
    match solver.mates_within(task.moves) {
        Ok(Some(solved)) => match first_lines(alloc, &solved) {
            Ok(text) => print(sink, text.as_slice()),
            Err(_) => print_error(sink, SolveError::Memory),
        },
        Ok(None) => print(sink, b"end\n"),
        Err(error) => print_error(sink, error),
    }
}

/// Returns whether the winner has no first move: he has no moves left, or it is the loser's turn.
pub fn has_no_first_move(task: &Task) -> bool
    ensures { IsTrue result ↔ HasNoFirstMove task.now.moves task.now.problem }
{
    if task.moves == 0 {
        return true;
    }
    task.problem.position.turn() == task.problem.winner.other()
}

/// Returns the number of rays of the man of this number, counted from 1.
pub fn ray_total(p: &Position, man: u8) -> u8
    requires first { 1 ≤ man }
    requires last { man ≤ length p.now.men }
    ensures { result ≡ specs.ray_total p.now man }
{
    let him = p.man(man);
    ray_count(him.kind, him.side)
}

/// The lines of all men, and the last line.
fn first_lines(alloc: Global, solved: &Solved) -> Result<Vec<u8>, AllocError>
    requires plan { solved.now.origin ≡ Plan }
    requires turn { solved.now.position.turn ≡ solved.now.winner }
    requires moves { 1 ≤ solved.now.moves }
    ensures { IfOk result (λ text. OfSolved AreLines solved.now text.items) }
{
    let mut text = Vec::new(alloc);
    let mut search = Search::reserve(alloc, solved.most_states())?;
    push_men(&mut text, solved, &mut search)?;
    text.extend_from_slice(b"end\n")?;
    Ok(text)
}

/// Adds the lines of all men.
fn push_men(text: &mut Vec<u8>, solved: &Solved, search: &mut Search) -> Result<(), AllocError>
    requires { IsServed search.old solved.now }
    ensures { OnOk result (Adds (OfSolved MenText solved.now) text.old.items text.new.items) }
{
    let position = solved.position();
    for index in 0..position.count() {
        push_man(text, solved, search, index + 1)?;
    }
    Ok(())
}

/// Adds the lines of a man.
fn push_man(
    text: &mut Vec<u8>,
    solved: &Solved,
    search: &mut Search,
    man: u8,
) -> Result<(), AllocError>
    requires served { IsServed search.old solved.now }
    requires first { 1 ≤ man }
    requires last { man ≤ length solved.now.position.men }
    ensures adds { OnOk result (Adds (OfSolved ManText solved.now man) text.old.items text.new.items) }
    ensures kept { search.new ≡ search.old }
{
    let position = solved.position();
    let total = ray_total(&position, man);
    for ray in 0..total {
        push_ray(text, solved, search, man, ray)?;
    }
    Ok(())
}

/// Appends the line of a man's ray of this number, if he has a first move along it.
fn push_ray(
    text: &mut Vec<u8>,
    solved: &Solved,
    search: &mut Search,
    man: u8,
    ray: u8,
) -> Result<(), AllocError>
    requires served { IsServed search.old solved.now }
    requires first { 1 ≤ man }
    requires last { man ≤ length solved.now.position.men }
    ensures adds { OnOk result (Adds (OfSolved RayText solved.now man ray) text.old.items text.new.items) }
    ensures kept { search.new ≡ search.old }
{
    let position = solved.position();
    if !has_ray(&position, man, ray) {
        return Ok(());
    }
    match first_moves(solved, search, Frame::whole(), man, ray) {
        Some(first) => {
            let line = first_line(first);
            text.extend_from_slice(line.as_slice())?;
            Ok(())
        }
        None => Ok(()),
    }
}

/// The line of a ray.
fn first_line(first: FirstLine) -> LineBuffer
    ensures { result ≡ line_of first }
{
    let mut line = LineBuffer::new();
    line.push(b"man ");
    line.push_number(i64::from(first.man));
    line.push(b" step ");
    line.push_number(i64::from(first.dx));
    line.push(b" ");
    line.push_number(i64::from(first.dy));
    line.push(b" least ");
    push_distance(&mut line, first.least);
    line.push(b" ");
    line.push(few_word(first.few));
    line.push(b"\n");
    line
}

/// Adds the least distance, in at most 40 bytes, or that there is none.
fn push_distance(line: &mut LineBuffer, least: Option<u128>)
    requires { length line.old + 40 ≤ 128 }
    ensures text { line.new ≡ line.old ++ specs.distance_word least }
    ensures room { length line.new ≤ length line.old + 40 }
{
    match least {
        Some(distance) => push_large(line, distance),
        None => line.push(b"wide"),
    }
}

/// The word for whether there are several distances.
fn few_word(few: Few) -> &'static [u8]
    ensures word { result.now ≡ specs.few_word few }
    ensures short { length result.now ≤ 4 }
{
    match few {
        Few::One => b"only",
        _ => b"more",
    }
}
