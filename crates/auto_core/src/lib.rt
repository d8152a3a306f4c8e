//! Defines complete deterministic automata on words over tracks.
//! The rows are nodes of shared diagrams, and contracts see them as dense tables. Constructors make the automata of linear atoms
//! (Büchi 1960) and of single values; automata are also renamed, and tested for membership of a tuple.
//! `specs/Automaton` defines the accepted words, `specs/Reduced` minimal automata ("reduced" means minimal), and `specs/Spread` the
//! number of states that a step needs.
#![tactic(auto)]

mod auto;
mod dense;
mod lin;
mod member;
mod reading;
mod rename;
mod sums;
mod terms;
mod value;

pub use auto::Auto;
pub use dense::node_of_row;
