//! The formulas of the rules, for men's numbers and a ray.

ghost use Rattle.std.specs.Prelude.{◌≡◌, ◌≤◌, ◌<◌, IfOk};
ghost use Rattle.lin_formula.specs.TreeOf.{tree_of};
ghost use Rattle.rule_formula.specs.Trees.{bear_tree, both_tree, ex_swept as swept_tree, image_body, image_tree, own_tree, pre_body, pre_tree, safe_tree, twins_tree};

use crate::atoms::{Extent, both, difference, not};
use crate::chains::{among_seats, and_path, and_ray};
use crate::opt::{ManPair, StepSets};
use crate::paths::{Journey, Path, Stretch};
use crate::seats::{ELSEWHERE, Seats, new_seat, own, spare};
use crate::stock::LiveMen;
use lin_formula::{Formula, SetId};
use std::alloc::{AllocError, Global};
use track_word::{Rel, Var};

/// Returns the quantification of the variable, if the ray changes it.
fn ex_swept(alloc: Global, step: i8, var: Var, formula: Formula) -> Result<Formula, AllocError>
    ensures { IfOk result (λ f. tree_of f ≡ swept_tree step var (tree_of formula)) }
{
    if step == 0 {
        return Ok(formula);
    }
    match lin_formula::ex(alloc, var, formula) {
        Ok(f) => Ok(f),
        Err(_) => Err(AllocError),
    }
}

/// Returns the membership of the position with the men on their own seats.
#[tactic(auto, using(crate::proofs::ChainLemmas::more))]
fn among_own(alloc: Global, men: LiveMen, source: SetId) -> Result<Formula, AllocError>
    ensures { IfOk result (λ f. tree_of f ≡ own_tree men.count men.mask source.0) }
{
    let seats = Seats {
        first: 0,
        first_seat: own(1),
        second: 0,
        second_seat: own(1),
    };
    among_seats(alloc, men, 0, seats, source)
}

/// Returns the formula of the move along the path from a position of the set.
#[tactic(auto, using(crate::proofs::ChainLemmas::more))]
fn image_inside(
    alloc: Global,
    men: LiveMen,
    journey: Journey,
    source: SetId,
) -> Result<Formula, AllocError>
    ensures { IfOk result (λ f. tree_of f
        ≡ image_body men.count men.mask journey.man journey.ray journey.taken source.0) }
{
    let Journey {
        man,
        ray,
        taken,
        ..
    } = journey;
    let from = spare(ray, man);
    let to = own(man);
    let seats = Seats {
        first: man,
        first_seat: from,
        second: taken,
        second_seat: to,
    };
    let among = among_seats(alloc, men, 0, seats, source)?;
    let stretch = Stretch {
        ray,
        from,
        to,
        extent: Extent::Onto,
    };
    let path = Path {
        stretch,
        first: man,
        second: taken,
    };
    and_path(alloc, among, men, path)
}

/// Returns the formula of the positions that the man's move reaches from those of the set.
pub(crate) fn image(
    alloc: Global,
    men: LiveMen,
    journey: Journey,
    source: SetId,
) -> Result<Formula, AllocError>
    ensures { IfOk result (λ f. tree_of f
        ≡ image_tree men.count men.mask journey.man journey.ray journey.taken source.0) }
{
    let body = image_inside(alloc, men, journey, source)?;
    let over_y = ex_swept(alloc, journey.ray.dy, ELSEWHERE.y, body)?;
    ex_swept(alloc, journey.ray.dx, ELSEWHERE.x, over_y)
}

/// Returns the formula that the position with the men on their own seats is in the set before the move, and that after the move in
/// the other set.
#[tactic(auto, using(crate::proofs::ChainLemmas::more))]
fn among_both(
    alloc: Global,
    men: LiveMen,
    journey: Journey,
    sets: StepSets,
) -> Result<Formula, AllocError>
    ensures { IfOk result (λ f. tree_of f
        ≡ both_tree men.count men.mask journey.man journey.ray journey.taken sets.before.0 sets.after.0) }
{
    let to = new_seat(journey);
    let seats = Seats {
        first: journey.man,
        first_seat: to,
        second: journey.taken,
        second_seat: to,
    };
    let before = among_own(alloc, men, sets.before)?;
    let after = among_seats(alloc, men, journey.taken, seats, sets.after)?;
    both(alloc, before, after)
}

/// Returns the formula of the move along the path between positions of both sets.
fn pre_inside(
    alloc: Global,
    men: LiveMen,
    journey: Journey,
    sets: StepSets,
) -> Result<Formula, AllocError>
    ensures { IfOk result (λ f. tree_of f
        ≡ pre_body men.count men.mask journey.man journey.ray journey.taken sets.before.0 sets.after.0) }
{
    let among = among_both(alloc, men, journey, sets)?;
    let from = own(journey.man);
    let to = new_seat(journey);
    let stretch = Stretch {
        ray: journey.ray,
        from,
        to,
        extent: Extent::Onto,
    };
    let path = Path {
        stretch,
        first: journey.man,
        second: journey.taken,
    };
    and_path(alloc, among, men, path)
}

/// Returns the formula of the positions of the set before the move from which the man's move reaches the set after it.
pub(crate) fn pre(
    alloc: Global,
    men: LiveMen,
    journey: Journey,
    sets: StepSets,
) -> Result<Formula, AllocError>
    ensures { IfOk result (λ f. tree_of f
        ≡ pre_tree men.count men.mask journey.man journey.ray journey.taken sets.before.0 sets.after.0) }
{
    let body = pre_inside(alloc, men, journey, sets)?;
    if journey.taken > 0 {
        return Ok(body);
    }
    let over_y = ex_swept(alloc, journey.ray.dy, ELSEWHERE.y, body)?;
    ex_swept(alloc, journey.ray.dx, ELSEWHERE.x, over_y)
}

/// Returns the formula that the man attacks the man that he would take, in a position of the set.
#[tactic(auto, using(crate::proofs::ChainLemmas::more))]
pub(crate) fn bear(
    alloc: Global,
    men: LiveMen,
    journey: Journey,
    source: SetId,
) -> Result<Formula, AllocError>
    requires { 1 ≤ journey.taken }
    ensures { IfOk result (λ f. tree_of f
        ≡ bear_tree men.count men.mask journey.man journey.ray journey.taken source.0) }
{
    let among = among_own(alloc, men, source)?;
    let Journey {
        man,
        ray,
        taken,
        ..
    } = journey;
    let from = own(man);
    let to = own(taken);
    let stretch = Stretch {
        ray,
        from,
        to,
        extent: Extent::Before,
    };
    if !ray.far {
        return and_ray(alloc, among, stretch);
    }
    let path = Path {
        stretch,
        first: man,
        second: taken,
    };
    and_path(alloc, among, men, path)
}

/// Returns the formula of the positions of the set in which the man does not attack the man that he would take.
pub(crate) fn safe(
    alloc: Global,
    men: LiveMen,
    journey: Journey,
    source: SetId,
) -> Result<Formula, AllocError>
    requires { 1 ≤ journey.taken }
    ensures { IfOk result (λ f. tree_of f
        ≡ safe_tree men.count men.mask journey.man journey.ray journey.taken source.0) }
{
    let among = among_own(alloc, men, source)?;
    let bears = bear(alloc, men, journey, source)?;
    both(alloc, among, not(alloc, bears)?)
}

/// Returns the formula of the positions of the set in which the two men stand on one square.
pub(crate) fn twins(
    alloc: Global,
    men: LiveMen,
    pair: ManPair,
    source: SetId,
) -> Result<Formula, AllocError>
    requires low { 1 ≤ pair.first }
    requires order { pair.first < pair.second }
    requires high { pair.second ≤ 8 }
    ensures { IfOk result (λ f. tree_of f ≡ twins_tree men.count men.mask pair.first pair.second source.0) }
{
    let among = among_own(alloc, men, source)?;
    let (first, second) = (own(pair.first), own(pair.second));
    let across = both(
        alloc,
        among,
        difference(alloc, first.x, second.x, Rel::Eq, 0)?,
    )?;
    both(
        alloc,
        across,
        difference(alloc, first.y, second.y, Rel::Eq, 0)?,
    )
}
