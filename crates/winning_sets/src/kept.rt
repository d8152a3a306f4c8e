//! The kept sets of each ply, from the last ply back to the first.
ghost use Rattle.std.specs.Prelude.{◌≡◌, ◌≤◌, ◌++◌, ◌∷◌, [], All, IfOk, OnErr, OnOk, length};
ghost use Rattle.mate_plan.specs.Bench.{IsLater};
ghost use Rattle.mate_plan.specs.Levels.{AreNamesIn};
ghost use Rattle.mate_plan.specs.Named.{AnswersLevel};
ghost use Rattle.winning_sets.specs.Keeping as keeping;
ghost use Rattle.winning_sets.specs.Keeping.{AnswersLevels};

use crate::turns::side_at;
use mate_plan::{
    LevelNames, LoserLevel, PartName, PlanContext, PlanState, WinnerLevel, lost_level, no_level,
    win_level,
};
use set_plan::PlanError;
use std::alloc::AllocError;

/// Adds the level of the next ply.
pub(crate) fn push_level(levels: &mut Vec<LevelNames>, level: LevelNames) -> Result<(), AllocError>
    ensures ok { OnOk result (levels.new.items ≡ levels.old.items ++ level ∷ []) }
    ensures err { OnErr result (levels.new.items ≡ levels.old.items) }
{
    levels.push(level)?;
    Ok(())
}

/// The sets of which what is kept at a ply is made.
#[derive(Clone, Copy)]
struct Keeping<'a> {
    ply: u8,
    /// How many plies there are up to the last one.
    left: u8,
    reach: &'a LevelNames,
    next_reach: &'a LevelNames,
    next_kept: &'a LevelNames,
}

/// Computes the kept level of a ply, from what is reached at this ply and the next, and what is kept at the next.
fn kept_at(
    bench: &PlanContext,
    work: &mut PlanState,
    from: &Keeping,
) -> Result<LevelNames, PlanError<PartName>>
    requires ply { from.now.ply ≤ 41 }
    requires reach { AreNamesIn bench.now.position.now work.old.sets from.now.reach.now }
    requires next_reach { AreNamesIn bench.now.position.now work.old.sets from.now.next_reach.now }
    requires next_kept { AreNamesIn bench.now.position.now work.old.sets from.now.next_kept.now }
    ensures answers { AnswersLevel bench.now work.old work.new (keeping.kept_level from.now) result }
    ensures names { IfOk result (AreNamesIn bench.now.position.now work.new.sets) }
    ensures later { IsLater work.old work.new }
{
    let side = side_at(bench.position.turn(), from.ply);
    if from.left % 2 == 0 {
        let winning = WinnerLevel {
            side,
            ply: from.ply,
            reach: from.reach,
            next_kept: from.next_kept,
        };
        win_level(bench, work, &winning)
    } else {
        let losing = LoserLevel {
            side,
            ply: from.ply,
            reach: from.reach,
            next_reach: from.next_reach,
            next_kept: from.next_kept,
        };
        lost_level(bench, work, &losing)
    }
}

/// Computes the kept levels of all plies from the reached levels. The level of the last ply has no sets.
pub(crate) fn kept_levels(
    bench: &PlanContext,
    work: &mut PlanState,
    reach: &[LevelNames],
) -> Result<Vec<LevelNames>, PlanError<PartName>>
    requires some { 1 ≤ length reach.now }
    requires few { length reach.now ≤ 42 }
    requires names { All (AreNamesIn bench.now.position.now work.old.sets) reach.now }
    ensures answers { AnswersLevels bench.now work.old work.new (keeping.backward_from reach.now) result }
    ensures names { IfOk result (λ kept. All (AreNamesIn bench.now.position.now work.new.sets) kept.items) }
    ensures later { IsLater work.old work.new }
{
    let mut kept = Vec::new(bench.alloc);
    push_level(&mut kept, no_level(bench)?)?;
    for left in 1..reach.len() {
        let ply = reach.len() - 1 - left;
        let from = Keeping {
            ply: ply as u8,
            left: left as u8,
            reach: &reach[ply],
            next_reach: &reach[ply + 1],
            next_kept: &kept[left - 1],
        };
        let level = kept_at(bench, work, &from)?;
        push_level(&mut kept, level)?;
    }
    kept.reverse();
    Ok(kept)
}
