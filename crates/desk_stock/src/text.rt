//! The stock text at the front of an input.

ghost use Rattle.std.specs.Prelude.{◌≡◌, ◌≤◌, [], length, IsErrOf, IfOk, None, Some};
ghost use Rattle.desk_base.specs.Faults.{HasRisen};
ghost use Rattle.desk_stock.specs.StockAt.{why_word};
ghost use Rattle.desk_stock.specs.StockRead.{StockRead};
ghost use Rattle.stock_text.specs.Progress.{IsWhole};
ghost use Rattle.stock_text.specs.StockText.{IsWritable};
ghost use Rattle.stock_text.specs.declared.reader.StockEnd.TheVariants as StockEnd;

use chess_text::LineOutcome;
use desk_base::{Line, LineError, LineReader, Source};
use stock_text::{Stock, StockReader, StockWhy};

/// Why a line is refused.
#[derive(Clone, Copy, PartialEq, Eq)]
pub enum StockLineWhy {
    /// The grammar does not allow it.
    Grammar(StockWhy),
    /// It has more than 200 bytes.
    Long,
    /// The input ends within it.
    Cut,
    /// The input ends before it.
    Missing,
}

impl StockLineWhy {
    /// Returns the last word of the fault line.
    pub fn word(self) -> &'static [u8]
        ensures word { result.now ≡ why_word self }
        ensures short { length result.now ≤ 7 }
    {
        match self {
            StockLineWhy::Grammar(StockWhy::Header) => b"header",
            StockLineWhy::Grammar(StockWhy::Winner) => b"winner",
            StockLineWhy::Grammar(StockWhy::ManLine) => b"man",
            StockLineWhy::Grammar(StockWhy::TooFew) => b"few",
            StockLineWhy::Grammar(StockWhy::TooMany) => b"many",
            StockLineWhy::Long => b"long",
            StockLineWhy::Cut => b"cut",
            StockLineWhy::Missing => b"missing",
        }
    }
}

/// Why no text was read: the source failed, or the line of this number, counted from 1, was refused.
#[derive(Clone, Copy, PartialEq, Eq)]
pub enum StockTextEnd {
    Fault,
    Refused(u32, StockLineWhy),
}

/// Returns the stock of a complete text.
fn whole_stock(text: StockReader) -> Stock
    requires { text.end ≡ Some StockEnd.Whole }
    ensures { IsWhole text result }
{
    match text.into_whole() {
        Some(stock) => stock,
        None => unreachable!(),
    }
}

/// Reads a stock text at the front of an input. Nothing after it is read, except at most 256 bytes that the reader keeps.
pub fn read_stock<S: Source>(reader: &mut LineReader, source: &mut S) -> Result<Stock, StockTextEnd>
    requires fresh { (reader.old.pending ≡ []) × (reader.old.stopped ≡ None) }
    ensures reads { StockRead result reader.new.pending (S.left source.old) (S.left source.new) }
    ensures writable { IfOk result IsWritable }
    ensures goes_on { IfOk result (λ stock. reader.new.stopped ≡ None) }
    ensures held { length reader.new.pending ≤ 256 }
    ensures failed { IsErrOf result StockTextEnd.Fault → HasRisen (S.faults source.old) (S.faults source.new) }
    ensures never_falls { S.faults source.old ≤ S.faults source.new }
{
    let mut text = StockReader::new();
    loop {
        let number = text.line_due();
        match reader.next_line(source) {
            Ok(Line::Full(_)) => match text.feed_line(reader.line()) {
                Ok(LineOutcome::More) => {}
                Ok(LineOutcome::Whole) => return Ok(whole_stock(text)),
                Err(error) => {
                    return Err(StockTextEnd::Refused(error.line, StockLineWhy::Grammar(error.why)));
                }
            },
            Ok(Line::End) => return Err(StockTextEnd::Refused(number, StockLineWhy::Missing)),
            Err(LineError::Cut) => return Err(StockTextEnd::Refused(number, StockLineWhy::Cut)),
            Err(LineError::TooLong) => return Err(StockTextEnd::Refused(
                number,
                StockLineWhy::Long,
            )),
            Err(LineError::Read) => return Err(StockTextEnd::Fault),
        }
    }
}
