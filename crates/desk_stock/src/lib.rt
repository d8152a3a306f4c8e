//! Reads a stock text at the front of an input.
//!
//! `specs/StockAt` defines what such a text says: a stock, or the first line that is refused. `specs/StockRead` defines
//! which bytes of a source are read for it.
#![tactic(auto)]

pub mod laws;
mod text;

pub use text::{StockLineWhy, StockTextEnd, read_stock};
