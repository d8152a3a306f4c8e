//! Whether the side to move in the starting position has a move into a level.
ghost use Rattle.std.specs.Prelude.{◌≡◌, ◌↔◌, IfOk, IfSome, IsTrue};
ghost use Rattle.lin_formula.specs.SetOf.{Member, as_set};
ghost use Rattle.mask_sets.specs.Stock.{mask_of};
ghost use Rattle.rule_formula.specs.Mean.{mask_tracks as tracks_at};
ghost use Rattle.mask_sets.specs.Tuple.{tuple_of};
ghost use Rattle.set_plan.specs.Outcome.{Answers};
ghost use Rattle.set_plan.specs.Sets.{IsSetOn};
ghost use Rattle.mate_plan.specs.Levels.{AreNamesIn};
ghost use Rattle.mate_plan.specs.Bench.{IsLater, IsSetFor};
ghost use Rattle.mate_plan.specs.Named.{AnswersWhether};
ghost use Rattle.mate_plan.specs.Named as named;

use crate::bench::{PlanContext, PlanState};
use crate::level::{LevelNames, name_in};
use crate::names::{Part, PartName};
use crate::stage::{PartMoves, Stage, StageSet};
use crate::starting::point_level;
use crate::unions::pre_set;
use auto_core::Auto;
use formula_auto::Memo;
use mask_sets::coordinates;
use set_plan::{PlanError, SetStore};

/// Whether the set, if there is one, has the coordinates of the position.
fn has_coordinates(bench: &PlanContext, set: &Option<Auto>) -> bool
    requires { IsSetFor bench.now (mask_of bench.now.position.now) set.now }
    ensures { IsTrue result ↔ Member (as_set set.now) (tuple_of bench.now.position.now) }
{
    match set {
        None => false,
        Some(a) => a.member(coordinates(bench.position).as_slice()),
    }
}

/// Computes the positions with the live men of the starting position from which the side to move has a move from the
/// first level into the second.
fn first_set(
    bench: &PlanContext,
    memo: &mut Memo,
    sets: &SetStore,
    start: &LevelNames,
    into: &LevelNames,
) -> Result<Option<Auto>, PlanError<PartName>>
    requires start { AreNamesIn bench.now.position.now sets.now start.now }
    requires into { AreNamesIn bench.now.position.now sets.now into.now }
    ensures answers { Answers (named.first_set start.now into.now bench.now sets.now) memo.old.budget as_set result }
    ensures set { IfOk result (IsSetFor bench.now (mask_of bench.now.position.now)) }
    ensures budget { memo.new.budget ≡ memo.old.budget }
{
    let stage = Stage {
        side: bench.position.turn(),
        ply: 0,
        mask: bench.position.mask(),
    };
    let name = name_in(bench, start, stage.mask);
    let moves = PartMoves {
        part: Part::First,
        set: StageSet { stage, name },
        into,
    };
    pre_set(bench, memo, sets, &moves)
}

/// Returns whether the side to move has a move from the position itself into the level. Intermediate sets are dropped.
pub fn has_first_move(
    bench: &PlanContext,
    work: &mut PlanState,
    into: &LevelNames,
) -> Result<bool, PlanError<PartName>>
    requires into { AreNamesIn bench.now.position.now work.old.sets into.now }
    ensures answers { AnswersWhether bench.now work.old (named.has_first_move into.now) result }
    ensures later { IsLater work.old work.new }
{
    let count = work.sets.count();
    let start = point_level(bench, work)?;
    let first = first_set(bench, &mut work.memo, &work.sets, &start, into)?;
    work.sets.truncate(count);
    Ok(has_coordinates(bench, &first))
}
