//! The command `crowd`: whether the winner of a position of up to 32 men mates.
//!
//! `specs/Crowd` defines what is reported of it.
#![tactic(auto)]

pub mod crowd;
