//! Expresses the rules of chess as formulas on the distances of a path's moves.
//! A path is a list of moves, each by a man along a ray. Each distance is a variable, so the place of each man after the path is a
//! linear expression in the distances, however many men there are. `specs/Places` defines the places, `specs/Atoms` their
//! comparisons, `specs/Rules` the parts of a move and of a check, and `specs/Paths` the positions after a path of options.
//! `specs/Laws` states the meaning: the parts of a further move are true at exactly the distances at which it is legal. The
//! definitions do not limit the number of men; the code takes as many as a crowd has, whose coordinates fit an `i64`. Only the
//! table of rays depends on the kinds of men.
#![tactic(auto)]

mod atoms;
mod bearing_list;
mod choices;
mod gap;
pub mod laws;
mod leg;
mod men;
mod rules;
mod scene;
mod terms;

pub use atoms::not;
pub use bearing_list::bearings;
pub use choices::options;
pub use gap::Gap;
pub use leg::{Leg, MOST_LEGS};
pub use men::{is_live, man_of, ray_at};
pub use rules::{bear, captures, distance, is_other, on_way};
pub use scene::{Force, Scene};
