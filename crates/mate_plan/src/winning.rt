//! The kept sets of a ply of the winner.
ghost use Rattle.std.specs.Prelude.{◌≡◌, IfOk};
ghost use Rattle.rule_formula.specs.Fits.{IsGameMask};
ghost use Rattle.mate_plan.specs.Levels.{AreNamesIn};
ghost use Rattle.mate_plan.specs.Bench.{IsLater, IsNameFor};
ghost use Rattle.mate_plan.specs.Named.{AnswersLevel, AnswersName};
ghost use Rattle.mate_plan.specs.Named as named;

use crate::bench::{PlanContext, PlanState};
use crate::by_mask::{LevelBuilder, level_by};
use crate::level::{LevelNames, name_in};
use crate::names::{Part, PartName};
use crate::stage::{PartMoves, Stage, StageSet};
use crate::unions::pre_set;
use game_rules::Side;
use lin_formula::SetId;
use set_plan::PlanError;

/// The inputs of the kept level of a ply at which the winner, `side`, is to move: what is reached at the ply, and what
/// is kept at the next one.
#[derive(Clone, Copy)]
pub struct WinnerLevel<'a> {
    pub side: Side,
    pub ply: u8,
    pub reach: &'a LevelNames,
    pub next_kept: &'a LevelNames,
}

/// The name of what is kept with the mask.
fn win_name(
    bench: &PlanContext,
    work: &mut PlanState,
    from: &WinnerLevel,
    mask: u8,
) -> Result<Option<SetId>, PlanError<PartName>>
    requires mask { IsGameMask bench.now.position.now mask }
    requires reach { AreNamesIn bench.now.position.now work.old.sets from.now.reach.now }
    requires next_kept { AreNamesIn bench.now.position.now work.old.sets from.now.next_kept.now }
    ensures answers { AnswersName bench.now work.old work.new (named.win_set from.now mask) result }
    ensures name { IfOk result (IsNameFor bench.now mask work.new.sets) }
    ensures later { IsLater work.old work.new }
{
    let WinnerLevel {
        side,
        ply,
        reach,
        next_kept,
    } = *from;
    let stage = Stage { side, ply, mask };
    let name = name_in(bench, reach, mask);
    let moves = PartMoves {
        part: Part::Win,
        set: StageSet { stage, name },
        into: next_kept,
    };
    let set = pre_set(bench, &mut work.memo, &work.sets, &moves)?;
    Ok(work.sets.keep(set)?)
}

impl LevelBuilder for WinnerLevel<'_> {
    ghost use Rattle.mate_plan.specs.Levels.{AreNamesIn, level_in};
    ghost use Rattle.mate_plan.specs.Plan as plan;
    ghost use Rattle.mate_plan.specs.PlanOf.{rules_of};

    ghost program = { λ it p sets. plan.win_set (rules_of p) it.side it.ply
        (level_in p sets it.reach.now) (level_in p sets it.next_kept.now) };

    ghost fits = { λ it p sets. AreNamesIn p sets it.reach.now × AreNamesIn p sets it.next_kept.now };

    fn name(
        &self,
        bench: &PlanContext,
        work: &mut PlanState,
        mask: u8,
    ) -> Result<Option<SetId>, PlanError<PartName>> {
        win_name(bench, work, self, mask)
    }
}

/// Computes the kept level of a ply of the winner.
pub fn win_level(
    bench: &PlanContext,
    work: &mut PlanState,
    from: &WinnerLevel,
) -> Result<LevelNames, PlanError<PartName>>
    requires reach { AreNamesIn bench.now.position.now work.old.sets from.now.reach.now }
    requires next_kept { AreNamesIn bench.now.position.now work.old.sets from.now.next_kept.now }
    ensures answers { AnswersLevel bench.now work.old work.new (named.win_level from.now) result }
    ensures names { IfOk result (AreNamesIn bench.now.position.now work.new.sets) }
    ensures later { IsLater work.old work.new }
{
    level_by(bench, work, from)
}
