//! Reads strategy files: defines which bytes are the file of which claim.
//!
//! `specs/Layout` defines how bytes are read field by field, and `specs/StrategyFile` has the fields of a file in
//! order.
#![tactic(auto)]

mod charts;
mod claim;
mod claimed;
mod dense;
mod fields;
pub mod laws;
mod men;
mod most;
mod nodes;
mod numbers;
mod place_list;
mod reading;
mod refusal;
mod rows;
mod shared;
mod start;
mod tables;
mod version;

pub use claim::{Claim, ClaimedSet};
pub use claimed::ClaimedAuto;
pub use dense::DenseAuto;
pub use most::MOST_FILED_STATES;
pub use numbers::{kind_number, side_number, turn_number};
pub use place_list::places;
pub use reading::read_file;
pub use refusal::{ByteWhy, FileError};
pub use shared::SharedAuto;
pub use version::Version;
