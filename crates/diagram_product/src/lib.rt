//! Computes products of two maps: diagrams of the numbered pairs of their values.
//! The two maps are nodes of one table, or are read in place from tables of their own, with other tracks. Pairs are numbered in the
//! order of their first occurrence. A cache of pairs of nodes is kept between calls.
#![tactic(auto)]

mod absorbing;
mod apply;
mod pairs;
mod product;
mod side;
mod sided_product;
mod sides;

pub use absorbing::Absorbing;
pub use apply::apply2;
pub use pairs::Pairs;
pub use product::Product;
pub use side::{LentReader, NodeReader};
pub use sided_product::SidedProduct;
pub use sides::{PairShape, PairTest, TwoSides};
