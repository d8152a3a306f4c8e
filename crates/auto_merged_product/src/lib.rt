//! The rows of the product of two automata, whose states are merged in one pass.
//! A pair of nodes is mapped to classes as soon as its pairs of states have classes, so no state of the product is built that is
//! merged with another one. `pair_rows` reads pairs of states and nodes as a `RowSource` of `auto_merge`, and `key_memo` caches keys
//! of pairs of nodes. `auto_minimize` builds the product over them.
#![tactic(auto)]

mod key_memo;
mod pair_rows;

pub use pair_rows::{Factors, PairRows};
