//! Parses and prints the text of a stock: the sides and kinds of the men of a table, and its winner.
//!
//! `specs/StockText` defines the text and the result of each line of it, `specs/Kings` which kings a table needs.
#![tactic(auto)]

mod kings;
pub mod laws;
mod man_line;
mod reader;
mod stock;
mod writer;

pub use kings::{KingFault, check_kings};
pub use man_line::StockWhy;
pub use reader::{StockError, StockReader, StockState};
pub use stock::{Stock, StockMan};
pub use writer::stock_bytes;
