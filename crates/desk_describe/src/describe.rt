//! The distances of the winner's first moves, ray by ray.

ghost use Rattle.std.specs.Prelude.{◌≡◌, ◌≤◌, Err, IfErr, IfOk, Ok, OnOk, length};
ghost use Rattle.winning_sets.specs.declared.origin.Origin.TheVariants.{Plan};
ghost use Rattle.desk_report.specs.Ports.{EndsOnSink};
ghost use Rattle.desk_verdict.specs.Verdict.{IsTask, OfTask};
ghost use Rattle.desk_solve.specs.First.{Adds, IsServed, MayMoveFirst, OfSolved};
ghost use Rattle.desk_describe.specs.Describe.{AreRayLines, DescribeReports, ManTells, MenTell, RayTells};
ghost use Rattle.desk_describe.specs.RayStep.{StopsWith};

use crate::description::{Rays, described};
use crate::ray_line::push_ray_line;
use crate::ray_step::{DescribeError, print_stop};
use auto_search::Search;
use chess_game::Frame;
use desk_base::Sink;
use desk_report::{Status, print};
use desk_solve::first::{has_no_first_move, ray_total};
use desk_text::Task;
use desk_verdict::{ProblemSolver, print_error};
use move_choice::{has_ray, his_ray};
use std::alloc::Global;
use winner_session::first_moves;

/// Writes, for each man and ray along which the winner has a first move of a mate in time, at which distances he has
/// one, and a last line. The whole text is computed before the first byte is written.
pub fn describe<K: Sink>(alloc: Global, task: &Task, sink: &mut K) -> Status
    requires { IsTask task.now }
    ensures ends { EndsOnSink K.Sink result (OfTask DescribeReports task.now) (MayMoveFirst task.now) sink.old sink.new }
{
    if has_no_first_move(task) {
        return print(sink, b"end\n");
    }
    let mut solver = ProblemSolver::new(alloc, &task.problem, task.budget);
    match solver.mates_within(task.moves) {
        Ok(Some(solved)) => {
            let of = Rays {
                alloc,
                solved: &solved,
                budget: task.budget,
            };
            match ray_lines(&of) {
                Ok(text) => print(sink, text.as_slice()),
                Err(error) => print_stop(sink, error),
            }
        }
        Ok(None) => print(sink, b"end\n"),
        Err(error) => print_error(sink, error),
    }
}

/// The lines of all rays, and the last line.
fn ray_lines(of: &Rays) -> Result<Vec<u8>, DescribeError>
    requires plan { of.now.solved.now.origin ≡ Plan }
    requires turn { of.now.solved.now.position.turn ≡ of.now.solved.now.winner }
    requires moves { 1 ≤ of.now.solved.now.moves }
    ensures lines { IfOk result (λ text. OfSolved (AreRayLines of.now.budget) of.now.solved.now text.items) }
    ensures stops { IfErr result (StopsWith (λ step. OfSolved (MenTell of.now.budget) of.now.solved.now (Err step))) }
{
    let mut text = Vec::new(of.alloc);
    let mut search = Search::reserve(of.alloc, of.solved.most_states())?;
    push_men(of, &mut text, &mut search)?;
    text.extend_from_slice(b"end\n")?;
    Ok(text)
}

/// Adds the lines of all men.
fn push_men(of: &Rays, text: &mut Vec<u8>, search: &mut Search) -> Result<(), DescribeError>
    requires { IsServed search.old of.now.solved.now }
    ensures adds { OnOk result (Adds (λ added. OfSolved (MenTell of.now.budget) of.now.solved.now (Ok added)) text.old.items text.new.items) }
    ensures stops { IfErr result (StopsWith (λ step. OfSolved (MenTell of.now.budget) of.now.solved.now (Err step))) }
{
    let position = of.solved.position();
    for index in 0..position.count() {
        push_man(of, text, search, index + 1)?;
    }
    Ok(())
}

/// Adds the lines of a man.
fn push_man(
    of: &Rays,
    text: &mut Vec<u8>,
    search: &mut Search,
    man: u8,
) -> Result<(), DescribeError>
    requires served { IsServed search.old of.now.solved.now }
    requires first { 1 ≤ man }
    requires last { man ≤ length of.now.solved.now.position.men }
    ensures adds { OnOk result (Adds (λ added. OfSolved (ManTells of.now.budget) of.now.solved.now man (Ok added)) text.old.items text.new.items) }
    ensures stops { IfErr result (StopsWith (λ step. OfSolved (ManTells of.now.budget) of.now.solved.now man (Err step))) }
    ensures kept { search.new ≡ search.old }
{
    let position = of.solved.position();
    let total = ray_total(&position, man);
    for ray in 0..total {
        push_ray(of, text, search, man, ray)?;
    }
    Ok(())
}

/// Appends the line of a man's ray of this number, if he has a first move along it.
fn push_ray(
    of: &Rays,
    text: &mut Vec<u8>,
    search: &mut Search,
    man: u8,
    ray: u8,
) -> Result<(), DescribeError>
    requires served { IsServed search.old of.now.solved.now }
    requires first { 1 ≤ man }
    requires last { man ≤ length of.now.solved.now.position.men }
    ensures adds { OnOk result (Adds (λ added. OfSolved (RayTells of.now.budget) of.now.solved.now man ray (Ok added)) text.old.items text.new.items) }
    ensures stops { IfErr result (StopsWith (λ step. OfSolved (RayTells of.now.budget) of.now.solved.now man ray (Err step))) }
    ensures kept { search.new ≡ search.old }
{
    let position = of.solved.position();
    if !has_ray(&position, man, ray) {
        return Ok(());
    }
    match first_moves(of.solved, search, Frame::whole(), man, ray) {
        Some(_) => {
            let description = described(of, man, ray)?;
            let step = his_ray(&position, man, ray).ray;
            push_ray_line(of.alloc, text, man, step, &description)?;
            Ok(())
        }
        None => Ok(()),
    }
}
