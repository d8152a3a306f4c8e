//! The top-level function `run`: executes one command on input, output and a file store.
//!
//! The arguments, the text, the soundness of its position, the sets, the file store and the output are handled in this
//! order. The first refusal ends the run. The relation `Reports` under `specs` defines what a run does. The contract of
//! `run` says how a run may differ from it if a port fails or memory runs out.
#![tactic(auto)]

mod desk;
pub mod laws;
mod show;

pub use desk::run;
pub use desk_args::{Order, UsageWhy, order_of};
pub use desk_report::Status;
