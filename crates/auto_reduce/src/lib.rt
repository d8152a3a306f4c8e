//! Minimizes automata, and decides emptiness, equality and closure under sign extension.
//! "Reduced" means minimal: each state is reached, and each two are distinguished (Moore 1956). `auto_refine` computes the
//! partition into indistinguishable states, and `specs/Quotient` defines the automaton over one state of each class.
#![tactic(auto)]

mod canonical;
mod empty;
pub mod laws;
mod order;
mod quotient;
mod same;
mod stable;
mod unmet;

pub use empty::is_empty;
pub use quotient::reduce;
pub use same::same_set;
pub use stable::sign_stable;
