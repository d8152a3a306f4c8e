//! Removes unreachable diagram nodes from automata whose tables have many of them.
//! A step leaves unreachable nodes in the table, since it makes intermediate nodes. Nothing but the table changes.
#![tactic(auto)]

mod compacting;

pub use compacting::{compact, renamed};
