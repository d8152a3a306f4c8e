//! Stores maps from letters to numbers as shared decision diagrams.
//! A node is a map that depends on finitely many tracks; equal maps are one node (reduced ordered decision diagrams with numbers at
//! the leaves, Bryant 1986).
//! Operations rebuild a map with other values or tracks, choose between two maps, compose them, and unite the sets that their
//! values number.
#![tactic(auto)]

mod bring;
mod carry;
mod choose;
mod compose;
mod diagrams;
mod flip_track;
pub mod laws;
mod leaves;
mod map_leaves;
mod memo;
mod merge;
mod merger;
mod node_memo;
mod numbering;
pub mod open_table;
mod pair_memo;
pub mod probing;
mod relabel;
mod sets;
mod shape_table;

pub use carry::{Rebuild, rebuilt, rebuilt_all};
pub use diagrams::{Diagrams, Node, Shape};
pub use memo::NodeCache;
pub use merger::Merger;
pub use node_memo::NodeMemo;
pub use numbering::NumberingError;
pub use pair_memo::PairMemo;
pub use sets::Sets;
