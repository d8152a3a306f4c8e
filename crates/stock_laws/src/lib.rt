//! States that captured men change nothing: positions with the same live men have the same value.
#![tactic(auto)]

pub mod laws;
