//! Checks a claim and turns a won claim into a solved position.
//!
//! It does not matter who made the claim. A claim is a position, the winner, a number of moves, and a set of positions
//! for each ply of the loser and each mask. The sets are reduced first. Then the claim's plan is executed, rule by rule
//! in the order of `claim_plan/specs/CheckPlan`. A claim of which all rules are true is won.
#![tactic(auto)]

mod checking;
mod claimed;
mod error;
mod first;
mod in_turn;
mod plies;
mod reduced;
mod replies;
mod rules;
mod sets;

pub use checking::check;
pub use error::CheckError;
