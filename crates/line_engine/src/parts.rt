//! Narrows a set to the distances at which one more move is legal, part by part.

ghost use Rattle.std.specs.Prelude.{◌≡◌, ◌≤◌, ◌<◌, ◌+◌, ◌*◌, ◌^◌, ◌∷◌, [], All, Contains, IfOk, if◌then◌else◌, length, map, suc};
ghost use Rattle.game_rules.specs.Game.{Sound};
ghost use Rattle.lin_formula.specs.SetOf.{Nothing, Table, as_set};
ghost use Rattle.lin_formula.specs.Tree.{Not};
ghost use Rattle.line_formula.specs.Paths.{bear_after, first_part, options_at, threats_at};
ghost use Rattle.line_formula.specs.Places.{home};
ghost use Rattle.line_formula.specs.Rules.{capture_parts, clear_parts, on_way as on_way_tree};
ghost use Rattle.line_formula.specs.Small.{AreTwo};
ghost use Rattle.rule_formula.specs.Placed.{is_live};
ghost use Rattle.rule_formula.specs.Trees.{is_other as other_than};
ghost use Rattle.set_plan.specs.Program.{each};
ghost use Rattle.set_plan.specs.Unite as unite;
ghost use Rattle.line_plan.specs.Plan as plan;
ghost use Rattle.line_engine.specs.Answers.{Answers, IsFilled, IsOneSet, made_at};
ghost use Rattle.line_engine.specs.Nodes.{position_of, safe_after};

use crate::errors::CrowdError;
use crate::path::{PathNode, PathStep};
use crate::sets::{join, leave_out, narrow, narrowed};
use crate::work::EngineState;
use auto_core::Auto;
use formula_auto::SetTable;
use line_formula::{Force, bear, bearings, captures, distance, is_other, on_way};
use rule_formula::Bearing;
use track_word::Var;

/// The distances at which the moves before are legal, with one for the further move: any that its ray has.
fn begun(
    work: &mut EngineState,
    step: &PathStep,
    reached: &SetTable,
) -> Result<Option<Auto>, CrowdError>
    requires set { IsOneSet (length step.now.before.path.now) reached.now }
    requires room { work.old.at + 1000 ≤ 2 ^ 127 }
    ensures answers { (a : _) → reached.now ≡ a ∷ []
        → Answers (plan.narrow (length step.now.before.path.now)
        (first_part (position_of step.now.before.crowd) step.now.before.path.now step.now.option) (Table a, work.old.at))
        work.old.memo.budget (made_at work.new.at) result }
    ensures set { IfOk result (IsFilled (suc (length step.now.before.path.now))) }
    ensures room { IfOk result (λ _. work.new.at ≤ work.old.at + 1000) }
    ensures budget { work.new.memo.budget ≡ work.old.memo.budget }
{
    let count = step.before.count();
    let first = distance(work.alloc, step.leg.ray.far, Var(count))?;
    narrowed(work, count, reached, first)
}

/// Of a capture, those of them at which the mover comes to the square of the man that is taken.
fn captured(
    work: &mut EngineState,
    step: &PathStep,
    so_far: Option<Auto>,
) -> Result<Option<Auto>, CrowdError>
    requires listed { Contains (options_at (position_of step.now.before.crowd) step.now.before.path.now) step.now.option }
    requires set { IsFilled (length step.now.after.path.now) so_far }
    requires room { work.old.at + 2000 ≤ 2 ^ 127 }
    ensures answers { Answers
        (each (capture_parts (home step.now.before.crowd.men.now) step.now.before.legs.now step.now.leg step.now.option.taken)
        (plan.narrow (length step.now.after.path.now)) (as_set so_far, work.old.at))
        work.old.memo.budget (made_at work.new.at) result }
    ensures set { IfOk result (IsFilled (length step.now.after.path.now)) }
    ensures room { IfOk result (λ _. work.new.at ≤ work.old.at + 2000) }
    ensures budget { work.new.memo.budget ≡ work.old.memo.budget }
{
    if so_far.is_none() {
        return Ok(None);
    }
    if step.option.taken == 0 {
        return Ok(so_far);
    }
    let count = step.after.count();
    let scene = step.after.scene();
    let parts = captures(work.alloc, scene, step.leg.man, step.option.taken)?;
    let (right, up) = parts;
    let aside = narrow(work, count, so_far, right)?;
    narrow(work, count, aside, up)
}

/// Those of them at which the man of this number is not on the way.
fn off_way(
    work: &mut EngineState,
    step: &PathStep,
    so_far: Option<Auto>,
    number: u8,
) -> Result<Option<Auto>, CrowdError>
    requires two { AreTwo step.now.before.crowd.men.now step.now.leg.man number }
    requires set { IsFilled (length step.now.after.path.now) so_far }
    requires room { work.old.at + 1000 ≤ 2 ^ 127 }
    ensures answers { Answers (plan.narrow (length step.now.after.path.now)
        (Not (on_way_tree (home step.now.before.crowd.men.now) step.now.before.legs.now step.now.leg number))
        (as_set so_far, work.old.at))
        work.old.memo.budget (made_at work.new.at) result }
    ensures set { IfOk result (IsFilled (length step.now.after.path.now)) }
    ensures room { IfOk result (λ _. work.new.at ≤ work.old.at + 1000) }
    ensures budget { work.new.memo.budget ≡ work.old.memo.budget }
{
    let before = step.before.scene();
    let after = step.after.scene();
    let hit = on_way(work.alloc, before, after, step.leg, number)?;
    leave_out(work, step.after.count(), so_far, hit)
}

/// The same, if he is a live man other than the mover and the man that is taken.
fn off_way_if_other(
    work: &mut EngineState,
    step: &PathStep,
    so_far: Option<Auto>,
    number: u8,
) -> Result<Option<Auto>, CrowdError>
    requires two { AreTwo step.now.before.crowd.men.now step.now.leg.man number }
    requires set { IsFilled (length step.now.after.path.now) so_far }
    requires room { work.old.at + 1000 ≤ 2 ^ 127 }
    ensures answers { Answers
        (each (if other_than (is_live step.now.before.force.mask) step.now.leg.man step.now.option.taken number
        then Not (on_way_tree (home step.now.before.crowd.men.now) step.now.before.legs.now step.now.leg number) ∷ []
        else []) (plan.narrow (length step.now.after.path.now)) (as_set so_far, work.old.at))
        work.old.memo.budget (made_at work.new.at) result }
    ensures set { IfOk result (IsFilled (length step.now.after.path.now)) }
    ensures room { IfOk result (λ _. work.new.at ≤ work.old.at + 1000) }
    ensures budget { work.new.memo.budget ≡ work.old.memo.budget }
{
    if so_far.is_none() {
        return Ok(None);
    }
    let mask = step.before.force.mask;
    if is_other(mask, step.leg.man, step.option.taken, number) {
        return off_way(work, step, so_far, number);
    }
    Ok(so_far)
}

/// Those of them at which no other man is on the way.
fn cleared(
    work: &mut EngineState,
    step: &PathStep,
    so_far: Option<Auto>,
) -> Result<Option<Auto>, CrowdError>
    requires listed { Contains (options_at (position_of step.now.before.crowd) step.now.before.path.now) step.now.option }
    requires set { IsFilled (length step.now.after.path.now) so_far }
    requires room { work.old.at + 32000 ≤ 2 ^ 127 }
    ensures answers { Answers
        (each (clear_parts (home step.now.before.crowd.men.now) step.now.before.legs.now step.now.leg
        (is_live step.now.before.force.mask) step.now.option.taken (length step.now.before.crowd.men.now))
        (plan.narrow (length step.now.after.path.now)) (as_set so_far, work.old.at))
        work.old.memo.budget (made_at work.new.at) result }
    ensures set { IfOk result (IsFilled (length step.now.after.path.now)) }
    ensures room { IfOk result (λ _. work.new.at ≤ work.old.at + 32000) }
    ensures budget { work.new.memo.budget ≡ work.old.memo.budget }
{
    let mut left = so_far;
    for n in 0..step.before.crowd.men.len() as u8 {
        left = off_way_if_other(work, step, left, n + 1)?;
    }
    Ok(left)
}

/// Those of them at which a man does not bear on a king.
fn without_bearing(
    work: &mut EngineState,
    node: &PathNode,
    so_far: Option<Auto>,
    bearing: Bearing,
) -> Result<Option<Auto>, CrowdError>
    requires two { AreTwo node.now.crowd.men.now bearing.man bearing.king }
    requires set { IsFilled (length node.now.path.now) so_far }
    requires room { work.old.at + 1000 ≤ 2 ^ 127 }
    ensures answers { Answers (plan.narrow (length node.now.path.now)
        (Not (bear_after (position_of node.now.crowd) node.now.path.now bearing)) (as_set so_far, work.old.at))
        work.old.memo.budget (made_at work.new.at) result }
    ensures set { IfOk result (IsFilled (length node.now.path.now)) }
    ensures room { IfOk result (λ _. work.new.at ≤ work.old.at + 1000) }
    ensures budget { work.new.memo.budget ≡ work.old.memo.budget }
{
    if so_far.is_none() {
        return Ok(None);
    }
    let bears = bear(work.alloc, node.scene(), node.force.mask, bearing)?;
    leave_out(work, node.count(), so_far, bears)
}

/// Those of them at which none of some men bears on a king.
fn without_bearings(
    work: &mut EngineState,
    node: &PathNode,
    so_far: Option<Auto>,
    bearings: &[Bearing],
) -> Result<Option<Auto>, CrowdError>
    requires men { All (λ b. AreTwo node.now.crowd.men.now b.man b.king) bearings.now }
    requires set { IsFilled (length node.now.path.now) so_far }
    requires room { work.old.at + 1000 * length bearings.now ≤ 2 ^ 127 }
    ensures answers { Answers
        (each bearings.now (λ b. plan.narrow (length node.now.path.now)
        (Not (bear_after (position_of node.now.crowd) node.now.path.now b))) (as_set so_far, work.old.at))
        work.old.memo.budget (made_at work.new.at) result }
    ensures set { IfOk result (IsFilled (length node.now.path.now)) }
    ensures room { IfOk result (λ _. work.new.at ≤ work.old.at + 1000 * length bearings.now) }
    ensures budget { work.new.memo.budget ≡ work.old.memo.budget }
{
    let mut left = so_far;
    for bearing in bearings {
        left = without_bearing(work, node, left, *bearing)?;
    }
    Ok(left)
}

/// Those of them after which no man bears on the king of the side that has moved.
fn safe(
    work: &mut EngineState,
    after: &PathNode,
    so_far: Option<Auto>,
) -> Result<Option<Auto>, CrowdError>
    requires sound { Sound (position_of after.now.crowd) }
    requires set { IsFilled (length after.now.path.now) so_far }
    requires room { work.old.at + 512000 ≤ 2 ^ 127 }
    ensures answers { Answers
        (each (safe_after (position_of after.now.crowd) after.now.path.now)
        (plan.narrow (length after.now.path.now)) (as_set so_far, work.old.at))
        work.old.memo.budget (made_at work.new.at) result }
    ensures set { IfOk result (IsFilled (length after.now.path.now)) }
    ensures room { IfOk result (λ _. work.new.at ≤ work.old.at + 512000) }
    ensures budget { work.new.memo.budget ≡ work.old.memo.budget }
{
    if so_far.is_none() {
        return Ok(None);
    }
    let dangers = bearings(work.alloc, after.crowd.men, after.force)?;
    without_bearings(work, after, so_far, dangers.as_slice())
}

/// Returns the distances at which the moves before and the further move are legal. The table has the set of those at
/// which the moves before are legal.
pub(crate) fn reach(
    work: &mut EngineState,
    step: &PathStep,
    reached: &SetTable,
) -> Result<Option<Auto>, CrowdError>
    requires sound { Sound (position_of step.now.before.crowd) }
    requires listed { Contains (options_at (position_of step.now.before.crowd) step.now.before.path.now) step.now.option }
    requires set { IsOneSet (length step.now.before.path.now) reached.now }
    requires room { work.old.at + 2 ^ 20 ≤ 2 ^ 127 }
    ensures answers { (a : _) → reached.now ≡ a ∷ []
        → Answers (plan.reach (position_of step.now.before.crowd) step.now.before.crowd.winner step.now.before.path.now
        step.now.option (Table a, work.old.at)) work.old.memo.budget (made_at work.new.at) result }
    ensures set { IfOk result (IsFilled (suc (length step.now.before.path.now))) }
    ensures room { IfOk result (λ _. work.new.at ≤ work.old.at + 2 ^ 20) }
    ensures budget { work.new.memo.budget ≡ work.old.memo.budget }
{
    let first = begun(work, step, reached)?;
    let second = captured(work, step, first)?;
    let third = cleared(work, step, second)?;
    safe(work, &step.after, third)
}

/// What there is so far, with those of the table at which a man bears on a king.
fn with_bearing(
    work: &mut EngineState,
    node: &PathNode,
    reached: &SetTable,
    so_far: Option<Auto>,
    bearing: Bearing,
) -> Result<Option<Auto>, CrowdError>
    requires two { AreTwo node.now.crowd.men.now bearing.man bearing.king }
    requires set { IsOneSet (length node.now.path.now) reached.now }
    requires so_far { IsFilled (length node.now.path.now) so_far }
    requires room { work.old.at + 2000 ≤ 2 ^ 127 }
    ensures answers { (a : _) → reached.now ≡ a ∷ []
        → Answers (unite.with_item (plan.distances (length node.now.path.now)) tt
        (plan.narrowed (length node.now.path.now) (bear_after (position_of node.now.crowd) node.now.path.now bearing) (Table a))
        (as_set so_far, work.old.at)) work.old.memo.budget (made_at work.new.at) result }
    ensures set { IfOk result (IsFilled (length node.now.path.now)) }
    ensures room { IfOk result (λ _. work.new.at ≤ work.old.at + 2000) }
    ensures budget { work.new.memo.budget ≡ work.old.memo.budget }
{
    let count = node.count();
    let bears = bear(work.alloc, node.scene(), node.force.mask, bearing)?;
    let next = narrowed(work, count, reached, bears)?;
    join(work, count, so_far, next)
}

/// Those of the table at which one of some men bears on a king.
fn with_bearings(
    work: &mut EngineState,
    node: &PathNode,
    reached: &SetTable,
    bearings: &[Bearing],
) -> Result<Option<Auto>, CrowdError>
    requires men { All (λ b. AreTwo node.now.crowd.men.now b.man b.king) bearings.now }
    requires set { IsOneSet (length node.now.path.now) reached.now }
    requires room { work.old.at + 2000 * length bearings.now ≤ 2 ^ 127 }
    ensures answers { (a : _) → reached.now ≡ a ∷ []
        → Answers (each bearings.now (λ b. unite.with_item (plan.distances (length node.now.path.now)) tt
        (plan.narrowed (length node.now.path.now) (bear_after (position_of node.now.crowd) node.now.path.now b) (Table a)))
        (Nothing, work.old.at)) work.old.memo.budget (made_at work.new.at) result }
    ensures set { IfOk result (IsFilled (length node.now.path.now)) }
    ensures room { IfOk result (λ _. work.new.at ≤ work.old.at + 2000 * length bearings.now) }
    ensures budget { work.new.memo.budget ≡ work.old.memo.budget }
{
    let mut so_far = None;
    for bearing in bearings {
        so_far = with_bearing(work, node, reached, so_far, *bearing)?;
    }
    Ok(so_far)
}

/// Returns the distances at which the side to move is in check. The table has the set of those at which the moves are
/// legal.
pub(crate) fn checked(
    work: &mut EngineState,
    node: &PathNode,
    reached: &SetTable,
) -> Result<Option<Auto>, CrowdError>
    requires sound { Sound (position_of node.now.crowd) }
    requires set { IsOneSet (length node.now.path.now) reached.now }
    requires room { work.old.at + 2 ^ 20 ≤ 2 ^ 127 }
    ensures answers { (a : _) → reached.now ≡ a ∷ []
        → Answers (unite.unite (plan.distances (length node.now.path.now)) tt (Nothing, work.old.at)
        (map (λ b. plan.narrowed (length node.now.path.now) (bear_after (position_of node.now.crowd) node.now.path.now b) (Table a))
        (threats_at (position_of node.now.crowd) node.now.path.now))) work.old.memo.budget (made_at work.new.at) result }
    ensures set { IfOk result (IsFilled (length node.now.path.now)) }
    ensures room { IfOk result (λ _. work.new.at ≤ work.old.at + 2 ^ 20) }
    ensures budget { work.new.memo.budget ≡ work.old.memo.budget }
{
    let others = Force {
        mask: node.force.mask,
        side: node.force.side.other(),
    };
    let threats = bearings(work.alloc, node.crowd.men, others)?;
    with_bearings(work, node, reached, threats.as_slice())
}
