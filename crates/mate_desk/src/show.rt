//! A problem, whether the side to move is in check, and the number of live men.

ghost use Rattle.std.specs.Prelude.{IfOk, ◌≡◌, is_some};
ghost use Rattle.game_rules.specs.Game.{Sound, square_of};
ghost use Rattle.desk_report.specs.Ports.{EndsOnSink};
ghost use Rattle.mate_desk.specs.Show.{IsCheckLine, IsShown, ShowReports, live_line};
ghost use Rattle.mate_desk.specs.Show as specs;

use chess_game::{Man, Place, Position, in_check};
use chess_text::line_buffer::LineBuffer;
use chess_text::position_bytes;
use desk_base::Sink;
use desk_report::{Status, print, refuse};
use desk_text::Problem;
use std::alloc::{AllocError, Global};

/// Writes the text of the problem, whether the side to move is in check, and the number of live men.
pub fn show<K: Sink>(alloc: Global, problem: &Problem, sink: &mut K) -> Status
    requires { Sound problem.now.position }
    ensures ends { EndsOnSink K.Sink result (ShowReports problem.now) (Unit {0}) sink.old sink.new }
{
    match shown(alloc, problem) {
        Ok(text) => print(sink, text.as_slice()),
        Err(_) => {
            refuse(sink, b"memory\n");
            Status::Memory
        }
    }
}

/// Returns the text of the problem and the lines after it.
fn shown(alloc: Global, problem: &Problem) -> Result<Vec<u8>, AllocError>
    requires { Sound problem.now.position }
    ensures { IfOk result (λ text. IsShown problem.now text.items) }
{
    let p = &problem.position;
    let mut text = position_bytes(alloc, p, problem.winner)?;
    text.extend_from_slice(check_line(p))?;
    text.extend_from_slice(count_line(p).as_slice())?;
    Ok(text)
}

/// The line that says whether the side to move is in check.
fn check_line(p: &Position) -> &'static [u8]
    requires { Sound p.now }
    ensures { IsCheckLine p.now result.now }
{
    if in_check(p) {
        b"check yes\n"
    } else {
        b"check no\n"
    }
}

/// The line that says how many men are live.
fn count_line(p: &Position) -> LineBuffer
    ensures { result ≡ live_line p.now }
{
    let mut line = LineBuffer::new();
    line.push(b"live ");
    line.push_number(i64::from(live_count(p)));
    line.push(b"\n");
    line
}

/// How many men are not captured.
fn live_count(p: &Position) -> u8
    ensures { result ≡ specs.live_count p.now }
{
    let mut live = 0;
    for index in 0..p.count() {
        if is_live(p.man(index + 1)) {
            live += 1;
        }
    }
    live
}

fn is_live(man: Man) -> bool
    ensures { result ≡ is_some (square_of man) }
{
    matches!(man.place, Place::At { .. })
}
