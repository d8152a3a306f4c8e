//! Decides whether two automata accept a common word.
//! A traversal of pairs of nodes of their diagrams builds no automaton and no node, and stops at the first pair of accepting states
//! that a common word reaches. `specs/Apart` defines disjointness, and `specs/Meetings` the invariant of the traversal.
#![tactic(auto)]

mod apart;
mod meeting;
mod met;

pub use apart::are_disjoint;
