//! The context and the state of a plan.
ghost use Rattle.std.specs.Prelude.{◌≡◌, ◌≤◌, [], length};
ghost use Rattle.game_rules.specs.Game.{Sound};
ghost use Rattle.rule_formula.specs.Fits.{masks_of};
ghost use Rattle.game_laws.specs.Soundness.{Sound-prop};

use chess_game::Position;
use formula_auto::Memo;
use limits::Budget;
use set_plan::SetStore;
use std::alloc::Global;

/// A sound position, with its masks.
#[derive(Clone, Copy)]
pub struct PlanContext<'a> {
    pub alloc: Global,
    pub position: &'a Position,
    pub masks: &'a [u8],
    ghost few: { length position.now.men ≤ 8 },
    ghost sound: { Sound position.now } by { Sound-prop position.now },
    ghost masks_are: { masks.now ≡ masks_of position.now },
}

/// The state of a plan: formulas compiled within a budget, and the sets.
#[derive(Drop)]
pub struct PlanState {
    pub memo: Memo,
    /// The sets to which the names in levels refer, and intermediate sets.
    pub sets: SetStore,
}

impl PlanState {
    /// Creates a state without sets.
    pub fn new(alloc: Global, budget: Budget) -> PlanState
        ensures budget { result.memo.budget ≡ budget }
        ensures sets { result.sets ≡ [] }
    {
        PlanState {
            memo: Memo::new(alloc, budget),
            sets: SetStore::new(alloc),
        }
    }
}
