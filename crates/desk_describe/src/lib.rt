//! The command `describe`: all distances of the winner's first moves, ray by ray.
//!
//! The distances are on the whole board. `specs/Describe` defines the report, `specs/Description` the text for a set of
//! distances, and `specs/RayStep` how a step that exceeds the budget is named.
#![tactic(auto)]

pub mod describe;
mod description;
mod lists;
mod ray_line;
mod ray_step;
