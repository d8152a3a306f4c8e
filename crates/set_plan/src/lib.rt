//! Executes programs that compute sets of integer tuples by named steps within a budget.
//! A function here returns the value of its program if no step exceeds the budget, and otherwise the first step that does.
//! `specs/Program` defines programs and their entries, `specs/Past` the first step that exceeds a budget, `specs/Unite` unions of
//! lists of formulas, `specs/Making` sets of formulas and differences, and `specs/Fold` programs that continue from the value so
//! far. `each` executes one program for each item of a list, given by a `ProgramFold`.
#![tactic(auto)]

mod asking;
mod empty;
mod fold;
mod left;
mod made;
mod pairs;
mod parts;
mod sets;
mod steps;
mod stop;

pub use asking::{are_empty, is_within};
pub use empty::{has_no_tuple, is_empty_set};
pub use fold::{ProgramFold, each};
pub use left::{Left, difference_set};
pub use made::Made;
pub use parts::{make, make_reached, reduced, union_of_two, unite};
pub use sets::SetStore;
pub use steps::step_count;
pub use stop::{PartStep, PlanError};
