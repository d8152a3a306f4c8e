//! The formula of the distances along a ray. The only error is that an allocation failed.
ghost use Rattle.std.specs.Prelude.{◌≡◌, ◌≤◌, IfOk, length, neg_ℤ, unsigned_abs};
ghost use Rattle.track_word.specs.Atom.{IsAtom};
ghost use Rattle.lin_formula.specs.Tree as tree;
ghost use Rattle.lin_formula.specs.TreeOf.{tree_of};
ghost use Rattle.game_rules.specs.Game.{place_square};
ghost use Rattle.move_choice.specs.Aims.{IsMover};
ghost use Rattle.rule_formula.specs.Seats.{own};
ghost use Rattle.rule_formula.specs.Trees.{and_all, own_tree};
ghost use Rattle.first_distances.specs.RayFormula as formula;

use crate::masks::is_live;
use chess_game::{Place, Position};
use lin_formula::{Formula, LinWhy, SetId, among, and, ex, lin, or, value};
use move_choice::ManRay;
use std::alloc::{AllocError, Global};
use track_word::{Rel, Var};

/// The variable of the distance.
const T: Var = Var(18);

/// The variables of the square that the man comes from.
const FROM_X: Var = Var(20);

const FROM_Y: Var = Var(21);

/// The variable of the man's place across the board.
fn x_of(k: u8) -> Var
    requires low { 1 ≤ k }
    requires high { k ≤ 8 }
    ensures own { result ≡ (own k).x }
    ensures few { result.0 ≤ 15 }
{
    Var(2 * k - 2)
}

/// The variable of the man's place along the board.
fn y_of(k: u8) -> Var
    requires low { 1 ≤ k }
    requires high { k ≤ 8 }
    ensures own { result ≡ (own k).y }
    ensures few { result.0 ≤ 15 }
{
    Var(2 * k - 1)
}

/// Returns the conjunction of the formulas.
fn both(alloc: Global, f: Formula, g: Formula) -> Result<Formula, AllocError>
    ensures { IfOk result (λ made. tree_of made ≡ tree.And (tree_of f) (tree_of g)) }
{
    match and(alloc, f, g) {
        Ok(made) => Ok(made),
        Err(_) => Err(AllocError),
    }
}

/// Returns the disjunction of the formulas.
fn either(alloc: Global, f: Formula, g: Formula) -> Result<Formula, AllocError>
    ensures { IfOk result (λ made. tree_of made ≡ tree.Or (tree_of f) (tree_of g)) }
{
    match or(alloc, f, g) {
        Ok(made) => Ok(made),
        Err(_) => Err(AllocError),
    }
}

/// Returns the formula that the body is true with some integer as the variable's value.
fn some(alloc: Global, var: Var, f: Formula) -> Result<Formula, AllocError>
    ensures { IfOk result (λ made. tree_of made ≡ tree.Ex var (tree_of f)) }
{
    match ex(alloc, var, f) {
        Ok(made) => Ok(made),
        Err(_) => Err(AllocError),
    }
}

/// The sum of the terms against the bound.
fn sum(alloc: Global, terms: &[(i8, Var)], rel: Rel, bound: i32) -> Result<Formula, AllocError>
    requires { IsAtom terms.now bound }
    ensures { IfOk result (λ f. tree_of f ≡ tree.Lin terms.now rel bound) }
{
    match lin(alloc, terms, rel, bound) {
        Ok(f) => Ok(f),
        Err(LinWhy::Memory) => Err(AllocError),
        Err(_) => unreachable!(),
    }
}

/// The position with the live men of the mask is in the set.
fn among_live(alloc: Global, count: u8, mask: u8, set: SetId) -> Result<Formula, AllocError>
    requires { count ≤ 8 }
    ensures { IfOk result (λ f. tree_of f ≡ own_tree count mask set.0) }
{
    let mut vars = Vec::new(alloc);
    for n in 0..count {
        let k = n + 1;
        if is_live(mask, k) {
            vars.push(x_of(k))?;
            vars.push(y_of(k))?;
        }
    }
    among(alloc, set, &vars)
}

/// Returns the formula that f is true and man k stands on the place, if it is a square, with some values of his
/// variables.
fn standing(alloc: Global, f: Formula, k: u8, place: Place) -> Result<Formula, AllocError>
    requires low { 1 ≤ k }
    requires high { k ≤ 8 }
    ensures { IfOk result (λ g. tree_of g ≡ formula.standing k (place_square place) (tree_of f)) }
{
    match place {
        Place::Gone => Ok(f),
        Place::At { x, y } => {
            let across = both(alloc, f, value(x_of(k), x))?;
            let there = both(alloc, across, value(y_of(k), y))?;
            some(alloc, y_of(k), some(alloc, x_of(k), there)?)
        }
    }
}

/// Returns the formula that f is true and the live men of the mask except this one stand on their squares of the
/// position.
fn others_standing(
    alloc: Global,
    f: Formula,
    p: &Position,
    mask: u8,
    man: u8,
) -> Result<Formula, AllocError>
    ensures { IfOk result (λ g. tree_of g ≡ formula.others_standing p.now mask man (tree_of f) (length p.now.men)) }
{
    let mut chain = f;
    for n in 0..p.count() {
        let k = n + 1;
        if is_live(mask, k) && k != man {
            chain = standing(alloc, chain, k, p.man(k).place)?;
        }
    }
    Ok(chain)
}

/// The distance as often as the step goes back.
fn back_term(step: i8) -> (i8, Var)
    requires { unsigned_abs step ≤ 2 }
    ensures { result ≡ (neg_ℤ step, formula.t_var) }
{
    (-step, T)
}

/// The variable has the other's value and the step as often as the distance.
fn gone_from(alloc: Global, x: Var, step: i8, origin: Var) -> Result<Formula, AllocError>
    requires short { unsigned_abs step ≤ 2 }
    requires low { x.0 ≤ 15 }
    requires high { 20 ≤ origin.0 }
    ensures { IfOk result (λ f. tree_of f ≡ formula.gone_from x step origin) }
{
    if step == 0 {
        sum(alloc, &[(1, x), (-1, origin)], Rel::Eq, 0)
    } else {
        let terms = [(1, x), back_term(step), (-1, origin)];
        sum(alloc, &terms, Rel::Eq, 0)
    }
}

/// The distance is at least 1.
fn begun(alloc: Global) -> Result<Formula, AllocError>
    ensures { IfOk result (λ f. tree_of f ≡ formula.begun) }
{
    sum(alloc, &[(-1, T)], Rel::Le, -1)
}

/// One coordinate of a man: its variable, the ray's step, and the variable and the value of the coordinate before the
/// move.
#[derive(Clone, Copy)]
struct Coordinate {
    var: Var,
    step: i8,
    origin: Var,
    from: i64,
}

/// Also, the coordinate has changed by the step as often as the distance.
fn and_gone(alloc: Global, f: Formula, c: Coordinate) -> Result<Formula, AllocError>
    requires short { unsigned_abs c.step ≤ 2 }
    requires low { c.var.0 ≤ 15 }
    requires high { 20 ≤ c.origin.0 }
    ensures { IfOk result (λ g. tree_of g ≡ tree.And (tree.And (tree_of f) (formula.gone_from c.var c.step c.origin)) (tree.Value c.origin c.from)) }
{
    let gone = both(alloc, f, gone_from(alloc, c.var, c.step, c.origin)?)?;
    both(alloc, gone, value(c.origin, c.from))
}

/// Also, the man has gone along the ray from the square.
fn and_way(alloc: Global, f: Formula, his: ManRay, x: i64, y: i64) -> Result<Formula, AllocError>
    requires low { 1 ≤ his.man }
    requires high { his.man ≤ 8 }
    requires across { unsigned_abs his.ray.dx ≤ 2 }
    requires along { unsigned_abs his.ray.dy ≤ 2 }
    ensures { IfOk result (λ g. tree_of g ≡ and_all (tree_of f) (formula.way_atoms his.man his.ray (record { x = x; y = y }))) }
{
    let across = and_gone(
        alloc,
        f,
        Coordinate {
            var: x_of(his.man),
            step: his.ray.dx,
            origin: FROM_X,
            from: x,
        },
    )?;
    let along = and_gone(
        alloc,
        across,
        Coordinate {
            var: y_of(his.man),
            step: his.ray.dy,
            origin: FROM_Y,
            from: y,
        },
    )?;
    both(alloc, along, begun(alloc)?)
}

/// Also, the man has gone along the ray from the place, if it is a square, in place of some values of his variables.
fn gone_along(alloc: Global, f: Formula, his: ManRay, place: Place) -> Result<Formula, AllocError>
    requires low { 1 ≤ his.man }
    requires high { his.man ≤ 8 }
    requires across { unsigned_abs his.ray.dx ≤ 2 }
    requires along { unsigned_abs his.ray.dy ≤ 2 }
    ensures { IfOk result (λ g. tree_of g ≡ formula.gone_along his.man his.ray (place_square place) (tree_of f)) }
{
    match place {
        Place::Gone => Ok(f),
        Place::At { x, y } => {
            let gone = and_way(alloc, f, his, x, y)?;
            let from = some(alloc, FROM_X, some(alloc, FROM_Y, gone)?)?;
            some(alloc, x_of(his.man), some(alloc, y_of(his.man), from)?)
        }
    }
}

/// Returns the formula that after the man has gone along his ray, the position with the live men of the mask is in the
/// set.
fn line(
    alloc: Global,
    p: &Position,
    his: ManRay,
    mask: u8,
    set: SetId,
) -> Result<Formula, AllocError>
    requires { IsMover p.now his.man his.number his.ray }
    ensures { IfOk result (λ f. tree_of f ≡ formula.line p.now his.man his.ray mask set.0) }
{
    let among = among_live(alloc, p.count(), mask, set)?;
    let others = others_standing(alloc, among, p, mask, his.man)?;
    gone_along(alloc, others, his, p.man(his.man).place)
}

/// Returns the formula: for one of the masks after a move of the man along his ray, its line is true.
pub(crate) fn ray_formula(
    alloc: Global,
    p: &Position,
    his: ManRay,
    masks: &[u8],
) -> Result<Formula, AllocError>
    requires mover { IsMover p.now his.man his.number his.ray }
    requires masks { masks.now ≡ formula.masks_after p.now }
    requires few { length masks.now ≤ 9 }
    ensures { IfOk result (λ f. tree_of f ≡ formula.ray_formula p.now his.man his.number) }
{
    let mut chain = line(alloc, p, his, masks[0], SetId(0))?;
    for k in 1..masks.len() {
        chain = either(
            alloc,
            chain,
            line(alloc, p, his, masks[k], SetId(k as u32))?,
        )?;
    }
    Ok(chain)
}
