//! Decides a formula, given as a line, over all integers.

ghost use Rattle.std.specs.Prelude.{◌≡◌, ◌+◌, ◌≤◌, ◌++◌, [], length};
ghost use Rattle.std.specs.Fmt.{signed_decimal};
ghost use Rattle.lin_formula.specs.TreeOf.{tree_of};
ghost use Rattle.arith_desk.specs.Question.{IsQuestion};
ghost use Rattle.desk_report.specs.Outcome.{Writes};
ghost use Rattle.desk_report.specs.Ports.{EndsOnSink, OnSink};
ghost use Rattle.desk_text.specs.Text as texts;
ghost use Rattle.desk_formula.specs.Arith.{ArithEndsOn, FormulaReports, LineReports};
ghost use Rattle.desk_formula.specs.Arith as specs;

use arith_desk::{ArithError, Truth, decide_closed, read_formula};
use chess_text::line_buffer::LineBuffer;
use desk_base::{Line, LineError, LineReader, Sink, Source};
use desk_report::{Status, print, refusal_line, refuse};
use desk_text::LineWhy;
use formula_auto::CompileError;
use itoa::Buffer;
use limits::{Budget, MOST_LINE_BYTES};
use lin_formula::Formula;
use std::alloc::Global;

/// Reads a formula from the first line, and writes whether it is true over all integers.
pub fn arith<S: Source, K: Sink>(
    alloc: Global,
    budget: Budget,
    source: &mut S,
    sink: &mut K,
) -> Status
    ensures ends { ArithEndsOn S.Source K.Sink budget result (source, sink) }
{
    let mut reader = LineReader::new();
    match reader.next_line(source) {
        Ok(Line::Full(_)) => answer_line(alloc, reader.line(), budget, sink),
        Ok(Line::End) => refuse_line(sink, LineWhy::Missing),
        Err(LineError::Cut) => refuse_line(sink, LineWhy::Cut),
        Err(LineError::TooLong) => refuse_line(sink, LineWhy::Long),
        Err(LineError::Read) => {
            refuse(sink, b"read fault\n");
            Status::ReadFault
        }
    }
}

/// Writes that the first line is refused, as far as the sink takes it.
fn refuse_line<K: Sink>(sink: &mut K, why: LineWhy) -> Status
    ensures status { result ≡ Status.Text }
    ensures written { OnSink K.Sink (Writes [] (texts.refusal_line 1 why)) sink.old sink.new }
{
    let line = refusal_line(1, why);
    refuse(sink, line.as_slice());
    Status::Text
}

/// Writes whether the formula in the line is true.
fn answer_line<K: Sink>(alloc: Global, line: &[u8], budget: Budget, sink: &mut K) -> Status
    requires short { length line.now ≤ MOST_LINE_BYTES }
    ensures ends { EndsOnSink K.Sink result (LineReports budget line.now) (Unit {0}) sink.old sink.new }
{
    match read_formula(alloc, line) {
        Ok(f) => answer(alloc, &f, budget, sink),
        Err(ArithError::Field(number)) => {
            let fault = field_line(number);
            refuse(sink, fault.as_slice());
            Status::Text
        }
        Err(ArithError::Memory) => {
            refuse(sink, b"memory\n");
            Status::Memory
        }
    }
}

/// Writes whether the formula is true.
fn answer<K: Sink>(alloc: Global, f: &Formula, budget: Budget, sink: &mut K) -> Status
    requires question { IsQuestion (tree_of f.now) }
    ensures ends { EndsOnSink K.Sink result (FormulaReports budget (tree_of f.now)) (Unit {0}) sink.old sink.new }
{
    match decide_closed(alloc, f, budget) {
        Ok(truth) => {
            let line = truth_line(truth);
            print(sink, line.as_slice())
        }
        Err(CompileError::Over { step }) => {
            let line = step_line(step);
            refuse(sink, line.as_slice());
            Status::Budget
        }
        Err(CompileError::Memory) => {
            refuse(sink, b"memory\n");
            Status::Memory
        }
    }
}

/// The line that says what is answered.
fn truth_line(truth: Truth) -> LineBuffer
    ensures { result ≡ specs.truth_line truth }
{
    match truth {
        Truth::False => whole_line(b"false\n"),
        Truth::True => whole_line(b"true\n"),
        Truth::Witness(number) => witness_line(number),
        Truth::WitnessWide => whole_line(b"true witness wide\n"),
    }
}

fn whole_line(text: &[u8]) -> LineBuffer
    requires { length text.now ≤ 100 }
    ensures { result ≡ text.now }
{
    let mut line = LineBuffer::new();
    line.push(text);
    line
}

/// The line with the number that was found.
fn witness_line(number: i128) -> LineBuffer
    ensures { result ≡ specs.witness_line number }
{
    let mut line = LineBuffer::new();
    line.push(b"true witness ");
    push_witness(&mut line, number);
    line.push(b"\n");
    line
}

/// Adds a number of 128 bits, in at most 40 bytes.
fn push_witness(line: &mut LineBuffer, number: i128)
    requires { length line.old + 40 ≤ 128 }
    ensures text { line.new ≡ line.old ++ signed_decimal number }
    ensures room { length line.new ≤ length line.old + 40 }
{
    line.push(Buffer::new().format(number).as_bytes());
}

/// The line that says which field of the first line is refused.
fn field_line(number: u32) -> LineBuffer
    ensures { result ≡ specs.field_line number }
{
    let mut line = LineBuffer::new();
    line.push(b"text line 1 formula ");
    line.push_number(i64::from(number));
    line.push(b"\n");
    line
}

/// Returns the line that names a step that exceeds the budget.
fn step_line(step: u32) -> LineBuffer
    ensures { result ≡ specs.step_line step }
{
    let mut line = LineBuffer::new();
    line.push(b"over budget at arith ");
    line.push_number(i64::from(step));
    line.push(b"\n");
    line
}
