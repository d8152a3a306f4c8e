//! A parser of stock texts that takes one line at a time.

ghost use Rattle.std.specs.Prelude.{◌≡◌, ◌≢◌, ◌≤◌, length, IfSome, IfNone, None, Some};
ghost use Rattle.stock_text.specs.Progress.{HasRoom, IsFed, IsWhole, Reads, answer_of, begun, line_due};
ghost use Rattle.stock_position.specs.declared.live.TheConstants.{MOST_STOCK};

use crate::man_line::{StockWhy, read_man_line, read_winner_line};
use crate::stock::Stock;
use chess_text::LineOutcome;
use std::marker::Model;
use stock_position::MOST_STOCK;

/// The number of a line that is refused, counted from 1, and the reason.
#[derive(Clone, Copy, PartialEq, Eq)]
pub struct StockError {
    pub line: u32,
    pub why: StockWhy,
}

/// How a text ended.
#[derive(Clone, Copy)]
pub enum StockEnd {
    Whole,
    Refused(StockError),
}

/// The progress of a text: which line is next.
#[derive(Drop)]
pub enum StockState {
    Header,
    Winner,
    /// A man or the end is next.
    Men(Stock),
}

impl StockState {
    /// Returns the number of the next line, counted from 1.
    fn number(&self) -> u32
        ensures { result ≡ line_due self.now }
    {
        match self {
            StockState::Header => 1,
            StockState::Winner => 2,
            StockState::Men(stock) => stock.men().len() as u32 + 3,
        }
    }
}

/// Takes a line after the first two.
fn feed_men(stock: &mut Stock, line: &[u8]) -> Result<LineOutcome, StockWhy>
    ensures fed { IsFed (StockState.Men stock.old) line.now result (StockState.Men stock.new) }
    ensures room { length stock.new.men ≤ MOST_STOCK }
{
    let count = stock.men().len();
    if line == b"end".as_slice() {
        return if count < 2 {
            Err(StockWhy::TooFew)
        } else {
            Ok(LineOutcome::Whole)
        };
    }
    if count == MOST_STOCK {
        return Err(StockWhy::TooMany);
    }
    let Some(man) = read_man_line(line) else {
        return Err(StockWhy::ManLine);
    };
    stock.push(man);
    Ok(LineOutcome::More)
}

/// Takes a line of a text.
fn feed(state: &mut StockState, line: &[u8]) -> Result<LineOutcome, StockWhy>
    requires { HasRoom state.old }
    ensures fed { IsFed state.old line.now result state.new }
    ensures room { HasRoom state.new }
{
    match state {
        StockState::Header => {
            if line != b"infinite stock 1".as_slice() {
                return Err(StockWhy::Header);
            }
            *state = StockState::Winner;
            Ok(LineOutcome::More)
        }
        StockState::Winner => {
            let Some(winner) = read_winner_line(line) else {
                return Err(StockWhy::Winner);
            };
            *state = StockState::Men(Stock::new(winner));
            Ok(LineOutcome::More)
        }
        StockState::Men(stock) => feed_men(stock, line),
    }
}

/// A parser of stock texts. It takes one line at a time.
#[derive(Drop)]
pub struct StockReader {
    state: StockState,
    end: Option<StockEnd>,
}

impl Model for StockReader {
    ghost use Rattle.stock_text.specs.Progress.{IsProgress, Progress};

    ghost Value = { Progress };

    ghost view = { λ r. record { state = r.state; end = r.end } };

    ghost invariant = { λ r. IsProgress (record { state = r.state; end = r.end }) };
}

impl StockReader {
    /// Creates a parser that has read nothing.
    pub fn new() -> Self
        ensures { result ≡ begun }
    {
        StockReader {
            state: StockState::Header,
            end: None,
        }
    }

    /// Returns the number of the next line, counted from 1, while the text continues.
    pub fn line_due(&self) -> u32
        ensures { result ≡ line_due self.now.state }
    {
        self.state.number()
    }

    /// Takes the next line of a text, without its LF. An error or a complete text is final: later calls return it
    /// again.
    pub fn feed_line(&mut self, line: &[u8]) -> Result<LineOutcome, StockError>
        ensures stopped { IfSome self.old.end (λ end. (result ≡ answer_of end) × (self.new ≡ self.old)) }
        ensures reads { self.old.end ≡ None → Reads self.old.state line.now result self.new }
    {
        match self.end {
            Some(StockEnd::Whole) => return Ok(LineOutcome::Whole),
            Some(StockEnd::Refused(error)) => return Err(error),
            None => {}
        }
        let number = self.line_due();
        match feed(&mut self.state, line) {
            Ok(LineOutcome::More) => Ok(LineOutcome::More),
            Ok(LineOutcome::Whole) => {
                self.end = Some(StockEnd::Whole);
                Ok(LineOutcome::Whole)
            }
            Err(why) => {
                let error = StockError { line: number, why };
                self.end = Some(StockEnd::Refused(error));
                Err(error)
            }
        }
    }

    /// Returns the stock if the text is complete, and consumes the parser.
    pub fn into_whole(self) -> Option<Stock>
        ensures some { IfSome result (λ stock. IsWhole self stock) }
        ensures none { IfNone result (self.end ≢ Some StockEnd.Whole) }
    {
        match (self.end, self.state) {
            (Some(StockEnd::Whole), StockState::Men(stock)) => Some(stock),
            _ => None,
        }
    }
}
