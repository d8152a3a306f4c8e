//! Whether each position of a set has a move into a level: loser's moves are answered, and quiet positions have
//! replies.
ghost use Rattle.std.specs.Prelude.{◌≡◌, IfOk};
ghost use Rattle.rule_formula.specs.Fits.{IsGameMask};
ghost use Rattle.set_plan.specs.Outcome.{Answers, as_is};
ghost use Rattle.mate_plan.specs.Levels.{AreNamesIn};
ghost use Rattle.mate_plan.specs.Bench.{IsLater, IsNameFor};
ghost use Rattle.mate_plan.specs.Named.{AnswersName, AnswersWhether};
ghost use Rattle.mate_plan.specs.Named as named;

use crate::bench::{PlanContext, PlanState};
use crate::lending::{is_lacking, keep_without, lent};
use crate::level::name_in;
use crate::names::{Part, PartName};
use crate::stage::{MovesInto, PartMoves, PartSet, StageSet};
use crate::tracks::mask_tracks;
use crate::unions::{check_set, pre_set};
use formula_auto::Memo;
use lin_formula::SetId;
use set_plan::{PlanError, SetStore, is_within};

/// Whether the side has a move into the level from each position of the set. What is left without one is this part.
fn have_moves(
    bench: &PlanContext,
    memo: &mut Memo,
    sets: &SetStore,
    moves: &PartMoves,
    missing: Part,
) -> Result<bool, PlanError<PartName>>
    requires source { IsNameFor bench.now moves.now.set.stage.mask sets.now moves.now.set.name }
    requires into { AreNamesIn bench.now.position.now sets.now moves.now.into.now }
    ensures answers { Answers (named.have_moves moves.now missing bench.now sets.now) memo.old.budget as_is result }
    ensures budget { memo.new.budget ≡ memo.old.budget }
{
    let StageSet { stage, name } = moves.set;
    let tracks = mask_tracks(bench.alloc, bench.position, stage.mask)?;
    let found = pre_set(bench, memo, sets, moves)?;
    is_within(
        bench.alloc,
        &tracks,
        stage.part(missing),
        lent(sets, name),
        found.as_ref(),
        memo.budget(),
    )
}

/// Returns the name of the positions of the set in which the side is not in check.
fn quiet_name(
    bench: &PlanContext,
    work: &mut PlanState,
    set: StageSet,
) -> Result<Option<SetId>, PlanError<PartName>>
    requires mask { IsGameMask bench.now.position.now set.stage.mask }
    requires source { IsNameFor bench.now set.stage.mask work.old.sets set.name }
    ensures answers { AnswersName bench.now work.old work.new (named.quiet_set set) result }
    ensures name { IfOk result (IsNameFor bench.now set.stage.mask work.new.sets) }
    ensures later { IsLater work.old work.new }
{
    let check = check_set(bench, &mut work.memo, &work.sets, set)?;
    let whole = PartSet {
        part: set.stage.part(Part::Quiet),
        name: set.name,
    };
    keep_without(bench, work, whole, check)
}

/// Returns whether the side to move has a move into the other level from each position of the stage's set.
pub fn are_answered(
    bench: &PlanContext,
    work: &mut PlanState,
    moves: &MovesInto,
) -> Result<bool, PlanError<PartName>>
    requires from { AreNamesIn bench.now.position.now work.old.sets moves.now.from.now }
    requires into { AreNamesIn bench.now.position.now work.old.sets moves.now.into.now }
    ensures answers { AnswersWhether bench.now work.old (named.are_answered moves.now) result }
    ensures sets { work.new.sets ≡ work.old.sets }
    ensures budget { work.new.memo.budget ≡ work.old.memo.budget }
{
    let stage = moves.stage;
    let name = name_in(bench, moves.from, stage.mask);
    let answers = PartMoves {
        part: Part::Answer,
        set: StageSet { stage, name },
        into: moves.into,
    };
    have_moves(bench, &mut work.memo, &work.sets, &answers, Part::Left)
}

/// Returns whether in each position of the stage's set the side to move is in check or has a move into the other level.
/// Intermediate sets are dropped as soon as they are no longer needed.
pub fn have_replies(
    bench: &PlanContext,
    work: &mut PlanState,
    moves: &MovesInto,
) -> Result<bool, PlanError<PartName>>
    requires mask { IsGameMask bench.now.position.now moves.now.stage.mask }
    requires from { AreNamesIn bench.now.position.now work.old.sets moves.now.from.now }
    requires into { AreNamesIn bench.now.position.now work.old.sets moves.now.into.now }
    ensures answers { AnswersWhether bench.now work.old (named.have_replies moves.now) result }
    ensures later { IsLater work.old work.new }
{
    let stage = moves.stage;
    let name = name_in(bench, moves.from, stage.mask);
    if is_lacking(&work.sets, name) {
        return Ok(true);
    }
    let count = work.sets.count();
    let quiet = quiet_name(bench, work, StageSet { stage, name })?;
    let replies = PartMoves {
        part: Part::Reply,
        set: StageSet { stage, name: quiet },
        into: moves.into,
    };
    let answered = have_moves(bench, &mut work.memo, &work.sets, &replies, Part::Stale)?;
    work.sets.truncate(count);
    Ok(answered)
}
