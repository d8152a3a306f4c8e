//! Defines formulas over the integers (Presburger 1929).
//! Atoms are linear comparisons, values and memberships in named sets; formulas combine them by negation, conjunction, disjunction
//! and existential quantification. Contracts see a formula as a tree (`specs/TreeOf`). `specs/Tree` defines its free variables, its
//! steps and when it is well made, `specs/Holds` its truth, and `specs/SetOf` sets of tuples as data.
#![tactic(auto)]

mod atoms;
mod copying;
mod formula;
mod free;
pub mod laws;
mod lists;

pub use atoms::{LinWhy, among, lin, value};
pub use copying::{copy, same};
pub use formula::{Formula, SetId, and, ex, not, or};
pub use free::free_vars;
pub use lists::{Terms, Vars};
