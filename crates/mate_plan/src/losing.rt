//! The kept sets of a ply of the loser.
ghost use Rattle.std.specs.Prelude.{◌≡◌, ◌<◌, IfOk, IfSome};
ghost use Rattle.rule_formula.specs.Fits.{IsGameMask};
ghost use Rattle.set_plan.specs.Sets.{IsSetOn};
ghost use Rattle.mate_plan.specs.Levels.{AreNamesIn};
ghost use Rattle.mate_plan.specs.Bench.{IsLater, IsNameFor, IsSetFor, tracks_on};
ghost use Rattle.mate_plan.specs.Named.{AnswersLevel, AnswersName, AnswersSet};
ghost use Rattle.mate_plan.specs.Named as named;

use crate::bench::{PlanContext, PlanState};
use crate::by_mask::{LevelBuilder, level_by};
use crate::lending::{is_lacking, joined, keep_left, keep_without, left_without, lent};
use crate::level::{LevelNames, name_in};
use crate::names::{Part, PartName};
use crate::stage::{PartMoves, PartSet, Stage, StageSet};
use crate::unions::{check_set, pre_set};
use auto_core::Auto;
use game_rules::Side;
use lin_formula::SetId;
use set_plan::PlanError;

/// What is reached at a ply and not kept there.
#[derive(Clone, Copy)]
struct Resting<'a> {
    ply: u8,
    reach: &'a LevelNames,
    kept: &'a LevelNames,
}

/// The name of what is reached and not kept with the mask.
fn rest_name(
    bench: &PlanContext,
    work: &mut PlanState,
    from: &Resting,
    mask: u8,
) -> Result<Option<SetId>, PlanError<PartName>>
    requires reach { AreNamesIn bench.now.position.now work.old.sets from.now.reach.now }
    requires kept { AreNamesIn bench.now.position.now work.old.sets from.now.kept.now }
    ensures answers { AnswersName bench.now work.old work.new (named.rest_set from.now mask) result }
    ensures name { IfOk result (IsNameFor bench.now mask work.new.sets) }
    ensures later { IsLater work.old work.new }
{
    let part = PartName {
        ply: from.ply,
        mask,
        part: Part::Rest,
    };
    let name = name_in(bench, from.reach, mask);
    let other = lent(&work.sets, name_in(bench, from.kept, mask));
    let budget = work.memo.budget();
    let left = left_without(bench, &work.sets, PartSet { part, name }, other, budget)?;
    Ok(keep_left(&mut work.sets, name, left)?)
}

impl LevelBuilder for Resting<'_> {
    ghost use Rattle.mate_plan.specs.Levels.{AreNamesIn, level_in};
    ghost use Rattle.mate_plan.specs.Plan as plan;
    ghost use Rattle.mate_plan.specs.PlanOf.{rules_of};

    ghost program = { λ it p sets. plan.rest_set (rules_of p) it.ply
        (level_in p sets it.reach.now) (level_in p sets it.kept.now) };

    ghost fits = { λ it p sets. AreNamesIn p sets it.reach.now × AreNamesIn p sets it.kept.now };

    fn name(
        &self,
        bench: &PlanContext,
        work: &mut PlanState,
        mask: u8,
    ) -> Result<Option<SetId>, PlanError<PartName>> {
        rest_name(bench, work, self, mask)
    }
}

/// The name of what is reached without a move into the rests.
fn calm_name(
    bench: &PlanContext,
    work: &mut PlanState,
    reach: StageSet,
    rests: &LevelNames,
) -> Result<Option<SetId>, PlanError<PartName>>
    requires mask { IsGameMask bench.now.position.now reach.stage.mask }
    requires reach { IsNameFor bench.now reach.stage.mask work.old.sets reach.name }
    requires rests { AreNamesIn bench.now.position.now work.old.sets rests.now }
    ensures answers { AnswersName bench.now work.old work.new (named.calm_set reach rests.now) result }
    ensures name { IfOk result (IsNameFor bench.now reach.stage.mask work.new.sets) }
    ensures later { IsLater work.old work.new }
{
    let moves = PartMoves {
        part: Part::Escape,
        set: reach,
        into: rests,
    };
    let escape = pre_set(bench, &mut work.memo, &work.sets, &moves)?;
    let whole = PartSet {
        part: reach.stage.part(Part::Calm),
        name: reach.name,
    };
    keep_without(bench, work, whole, escape)
}

/// What is calm and not in check, and has a move.
fn reply_set(
    bench: &PlanContext,
    work: &mut PlanState,
    calm: StageSet,
    check: Option<&Auto>,
    next_reach: &LevelNames,
) -> Result<Option<Auto>, PlanError<PartName>>
    requires mask { IsGameMask bench.now.position.now calm.stage.mask }
    requires calm { IsNameFor bench.now calm.stage.mask work.old.sets calm.name }
    requires check { IfSome check (λ a. IsSetOn (tracks_on bench.now calm.stage.mask) a.now) }
    requires next_reach { AreNamesIn bench.now.position.now work.old.sets next_reach.now }
    ensures answers { AnswersSet bench.now work.old (named.reply_set calm check.entry next_reach.now) result }
    ensures set { IfOk result (IsSetFor bench.now calm.stage.mask) }
    ensures later { IsLater work.old work.new }
{
    let StageSet { stage, name } = calm;
    let whole = PartSet {
        part: stage.part(Part::Quiet),
        name,
    };
    let budget = work.memo.budget();
    let left = left_without(bench, &work.sets, whole, check, budget)?;
    let quiet = keep_left(&mut work.sets, name, left)?;
    let moves = PartMoves {
        part: Part::Reply,
        set: StageSet { stage, name: quiet },
        into: next_reach,
    };
    pre_set(bench, &mut work.memo, &work.sets, &moves)
}

/// Computes the kept set of a mask, if some position is reached with it.
fn lost_set(
    bench: &PlanContext,
    work: &mut PlanState,
    reach: StageSet,
    next_reach: &LevelNames,
    rests: &LevelNames,
) -> Result<Option<Auto>, PlanError<PartName>>
    requires mask { IsGameMask bench.now.position.now reach.stage.mask }
    requires reach { IsNameFor bench.now reach.stage.mask work.old.sets reach.name }
    requires next_reach { AreNamesIn bench.now.position.now work.old.sets next_reach.now }
    requires rests { AreNamesIn bench.now.position.now work.old.sets rests.now }
    ensures answers { AnswersSet bench.now work.old (named.lost_set reach next_reach.now rests.now) result }
    ensures set { IfOk result (IsSetFor bench.now reach.stage.mask) }
    ensures later { IsLater work.old work.new }
{
    let stage = reach.stage;
    let name = calm_name(bench, work, reach, rests)?;
    let calm = StageSet { stage, name };
    let check = check_set(bench, &mut work.memo, &work.sets, calm)?;
    let reply = reply_set(bench, work, calm, check.as_ref(), next_reach)?;
    let part = stage.part(Part::Lost);
    joined(bench, part, check, reply, work.memo.budget())
}

/// The inputs of the kept level of a ply of the loser, with the positions that are reached and not kept at the next
/// ply.
#[derive(Clone, Copy)]
struct Lost<'a> {
    side: Side,
    ply: u8,
    reach: &'a LevelNames,
    next_reach: &'a LevelNames,
    rests: &'a LevelNames,
}

/// The name of what is kept with the mask. The sets that are made on the way are kept for as long only as they are
/// needed.
fn lost_name(
    bench: &PlanContext,
    work: &mut PlanState,
    from: &Lost,
    mask: u8,
) -> Result<Option<SetId>, PlanError<PartName>>
    requires mask { IsGameMask bench.now.position.now mask }
    requires reach { AreNamesIn bench.now.position.now work.old.sets from.now.reach.now }
    requires next_reach { AreNamesIn bench.now.position.now work.old.sets from.now.next_reach.now }
    requires rests { AreNamesIn bench.now.position.now work.old.sets from.now.rests.now }
    ensures answers { AnswersName bench.now work.old work.new (named.lost_set_if from.now mask) result }
    ensures name { IfOk result (IsNameFor bench.now mask work.new.sets) }
    ensures later { IsLater work.old work.new }
{
    let stage = Stage {
        side: from.side,
        ply: from.ply,
        mask,
    };
    let name = name_in(bench, from.reach, mask);
    if is_lacking(&work.sets, name) {
        return Ok(None);
    }
    let count = work.sets.count();
    let reach = StageSet { stage, name };
    let set = lost_set(bench, work, reach, from.next_reach, from.rests)?;
    work.sets.truncate(count);
    Ok(work.sets.keep(set)?)
}

impl LevelBuilder for Lost<'_> {
    ghost use Rattle.mate_plan.specs.Levels.{AreNamesIn, level_in};
    ghost use Rattle.mate_plan.specs.Plan as plan;
    ghost use Rattle.mate_plan.specs.PlanOf.{rules_of};

    ghost program = { λ it p sets. plan.lost_set_if (rules_of p) it.side it.ply (level_in p sets it.reach.now)
        (level_in p sets it.next_reach.now) (level_in p sets it.rests.now) };

    ghost fits = { λ it p sets. AreNamesIn p sets it.reach.now × AreNamesIn p sets it.next_reach.now
        × AreNamesIn p sets it.rests.now };

    fn name(
        &self,
        bench: &PlanContext,
        work: &mut PlanState,
        mask: u8,
    ) -> Result<Option<SetId>, PlanError<PartName>> {
        lost_name(bench, work, self, mask)
    }
}

/// The inputs of the kept level of a ply at which the loser, `side`, is to move: what is reached at the ply and at the
/// next one, and what is kept at the next one.
#[derive(Clone, Copy)]
pub struct LoserLevel<'a> {
    pub side: Side,
    pub ply: u8,
    pub reach: &'a LevelNames,
    pub next_reach: &'a LevelNames,
    pub next_kept: &'a LevelNames,
}

/// Computes the kept level of a ply of the loser.
pub fn lost_level(
    bench: &PlanContext,
    work: &mut PlanState,
    from: &LoserLevel,
) -> Result<LevelNames, PlanError<PartName>>
    requires ply { from.now.ply < 255 }
    requires reach { AreNamesIn bench.now.position.now work.old.sets from.now.reach.now }
    requires next_reach { AreNamesIn bench.now.position.now work.old.sets from.now.next_reach.now }
    requires next_kept { AreNamesIn bench.now.position.now work.old.sets from.now.next_kept.now }
    ensures answers { AnswersLevel bench.now work.old work.new (named.lost_level from.now) result }
    ensures names { IfOk result (AreNamesIn bench.now.position.now work.new.sets) }
    ensures later { IsLater work.old work.new }
{
    let resting = Resting {
        ply: from.ply + 1,
        reach: from.next_reach,
        kept: from.next_kept,
    };
    let rests = level_by(bench, work, &resting)?;
    let lost = Lost {
        side: from.side,
        ply: from.ply,
        reach: from.reach,
        next_reach: from.next_reach,
        rests: &rests,
    };
    level_by(bench, work, &lost)
}
