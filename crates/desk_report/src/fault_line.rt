//! Fault lines.

ghost use Rattle.std.specs.Prelude.{◌≡◌, ◌≤◌, ◌++◌, ◌+◌, ◌∷◌, [], length};
ghost use Rattle.std.specs.Fmt.{decimal};
ghost use Rattle.chess_text.specs.ManLine.{side_letter};
ghost use Rattle.desk_report.specs.FaultLines as specs;
ghost use Rattle.desk_report.specs.Outcome.{Writes};
ghost use Rattle.desk_report.specs.Ports.{OnSink};
ghost use Rattle.desk_text.specs.Text as texts;

use chess_game::{Side, Unsound};
use chess_text::line_buffer::LineBuffer;
use desk_base::{Sink, put_all};
use desk_text::LineWhy;
use itoa::Buffer;

/// Returns the line that reports which line of a text is refused, and why.
pub fn refusal_line(number: u32, why: LineWhy) -> LineBuffer
    ensures { result ≡ texts.refusal_line number why }
{
    let mut line = LineBuffer::new();
    line.push(b"text line ");
    line.push_number(i64::from(number));
    line.push(b" ");
    line.push(why.word());
    line.push(b"\n");
    line
}

/// Returns the line that reports why a position is not sound.
pub fn unsound_line(why: Unsound) -> LineBuffer
    ensures { result ≡ specs.unsound_line why }
{
    match why {
        Unsound::NoKing(side) => side_line(b"unsound no king ", side),
        Unsound::ManyKings(side) => side_line(b"unsound many kings ", side),
        Unsound::KingGone(side) => side_line(b"unsound king gone ", side),
        Unsound::SameSquare(first, second) => same_square_line(first, second),
        Unsound::OtherInCheck => {
            let mut line = LineBuffer::new();
            line.push(b"unsound other side in check\n");
            line
        }
    }
}

/// The text, and the letter of the side.
fn side_line(text: &[u8], side: Side) -> LineBuffer
    requires { length text.now ≤ 100 }
    ensures { result ≡ text.now ++ side_letter side ∷ 10 ∷ [] }
{
    let mut line = LineBuffer::new();
    line.push(text);
    match side {
        Side::White => line.push(b"W\n"),
        Side::Black => line.push(b"B\n"),
    }
    line
}

/// The line that names two men on one square.
fn same_square_line(first: u8, second: u8) -> LineBuffer
    ensures { result ≡ specs.unsound_line (Unsound.SameSquare first second) }
{
    let mut line = LineBuffer::new();
    line.push(b"unsound same square ");
    line.push_number(i64::from(first));
    line.push(b" ");
    line.push_number(i64::from(second));
    line.push(b"\n");
    line
}

/// Appends a number of up to 128 bits in decimal, at most 40 bytes.
pub fn push_large(line: &mut LineBuffer, number: u128)
    requires { length line.old + 40 ≤ 128 }
    ensures text { line.new ≡ line.old ++ decimal number }
    ensures room { length line.new ≤ length line.old + 40 }
{
    line.push(Buffer::new().format(number).as_bytes());
}

/// Writes a fault line, as far as the sink accepts it.
pub fn refuse<K: Sink>(sink: &mut K, line: &[u8])
    ensures written { OnSink K.Sink (Writes [] line.now) sink.old sink.new }
    ensures never_falls { K.faults sink.old ≤ K.faults sink.new }
{
    let _ = put_all(sink, line);
}
