//! Explores the places that words reach, with a worklist, and builds their automaton.
//! A place is a discovered state, such as a pair or a set of states; the trait `Walk` computes its row. Product, projection and
//! shift are such walks. `residue` is a small one and serves as an example.
//! `specs/Walker` defines places and the automaton of a walk, and `specs/Rows` its rows.
#![tactic(auto)]

mod explore;
mod grown;
mod residues;
mod walk;

pub use explore::explored;
pub use grown::Grown;
pub use residues::residue;
pub use walk::Walk;
