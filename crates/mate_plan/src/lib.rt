//! Computes the levels of the plan by which the winner mates within n moves.
//!
//! A plan is a sequence of named steps that compute sets of positions, ply by ply and mask by mask; a level is the sets
//! of one ply. `specs/Plan` has the steps, `specs/PlanOf` the plan of a position, `specs/Levels` the levels as the code
//! stores them, and `specs/Formulas` the formulas whose sets are united.
//!
//! Each function computes one level from the levels that it depends on, mask by mask (`level_by`), or one of the
//! questions on the sets of a ply in `specs/Questions`. It takes a `PlanContext`, which does not change, and a
//! `PlanState`, which grows; `specs/Bench` has the properties of both. `specs/Named` has the programs of the plan over
//! sets that are referred to by name. `specs/Claim` defines claims, and `specs/Won` when a claim is won.
#![tactic(auto)]

mod answering;
mod apart;
mod bench;
mod by_mask;
mod first;
mod formulas;
pub mod laws;
mod lending;
mod level;
mod losing;
mod names;
mod narrowing;
mod reaching;
mod stage;
mod starting;
mod tracks;
mod turns;
mod unions;
mod winning;

pub use answering::{are_answered, have_replies};
pub use apart::{are_on_distinct_squares, are_safe};
pub use bench::{PlanContext, PlanState};
pub use by_mask::{LevelBuilder, level_by};
pub use first::has_first_move;
pub use level::LevelNames;
pub use losing::{LoserLevel, lost_level};
pub use names::{Part, PartName};
pub use reaching::{ReachedLevel, reach_level};
pub use stage::{MovesInto, Stage, StageLevel};
pub use starting::{no_level, one_level, point_level};
pub use tracks::mask_tracks;
pub use turns::plies_before_turn;
pub use winning::{WinnerLevel, win_level};
