//! The formulas of the rules.

ghost use Rattle.std.specs.Prelude.{◌≡◌, ◌≤◌, ◌<◌, IfOk, IfSome, Some, length};
ghost use Rattle.game_rules.specs.declared.men.Man.{Man};
ghost use Rattle.game_rules.specs.Rays.{ray_of};
ghost use Rattle.lin_formula.specs.TreeOf.{tree_of};
ghost use Rattle.rule_formula.specs.Paths.{HasJourney, IsRayStep};
ghost use Rattle.rule_formula.specs.Placed.{IsLiveIn, is_live as live_in};
ghost use Rattle.game_laws.specs.Stock.{stock_man};
ghost use Rattle.rule_formula.specs.Trees.{bear_of, image_of, pre_of, ray_at, safe_of, tracks_of, twins_tree};
ghost use Rattle.rule_formula.specs.Meaning.{IsBear, IsBearer, IsImage, IsOptionOf, IsPre, IsSafe, IsTwins};
ghost use Rattle.rule_formula.specs.Seats.{own as own_seat, vars_to};
ghost use Rattle.rule_formula.specs.Size.{IsModest, NamesBeforeAndAfter, NamesOnly};

use crate::build::{bear, image, pre, safe, twins};
use crate::opt::{Bearing, ManPair, Opt, StepSets};
use crate::paths::Journey;
use crate::stock::{LiveMen, live_men, man_of};
use chess_game::{Position, ray};
use game_rules::Ray;
use lin_formula::{Formula, SetId};
use std::alloc::{AllocError, Global};

/// Returns the man's ray with this number, if he has one.
#[tactic(auto, using(crate::proofs::KindLemmas::moving))]
fn ray_of_man(stock: &Position, man: u8, number: u8) -> Option<Ray>
    requires low { 1 ≤ man }
    requires high { man ≤ length stock.now.men }
    ensures ray { (m : Man) → stock_man stock.now.men man ≡ Some m → result ≡ ray_of m.kind m.side number }
    ensures step { IfSome result (λ r. IsRayStep r.dx r.dy) }
{
    let man = man_of(stock, man);
    ray(man.kind, man.side, number)
}

/// Returns the man's path along his ray with this number, by which he takes the other man, or nobody if `taken` is 0.
fn journey(stock: &Position, man: u8, number: u8, taken: u8) -> Journey
    requires { HasJourney stock.now.men man number taken }
    ensures man { result.man ≡ man }
    ensures ray { result.ray ≡ ray_at stock.now.men man number }
    ensures taken { result.taken ≡ taken }
    ensures few { length stock.now.men ≤ 8 }
{
    let _few = stock.count();
    match ray_of_man(stock, man, number) {
        Some(ray) => Journey { man, ray, taken },
        None => unreachable!(),
    }
}

/// Returns the image as a tree.
fn image_at(
    alloc: Global,
    stock: &Position,
    mask: u8,
    opt: Opt,
    source: SetId,
) -> Result<Formula, AllocError>
    requires { IsOptionOf stock.now.men mask opt }
    ensures tree { IfOk result (λ f. tree_of f ≡ image_of stock.now.men mask opt source.0) }
    ensures few { length stock.now.men ≤ 8 }
{
    let journey = journey(stock, opt.man, opt.ray, opt.taken);
    image(alloc, live_men(stock, mask), journey, source)
}

/// Returns the formula of the positions that a step by the option reaches from those of the set, whose live men are those of the
/// mask.
pub fn image_formula(
    alloc: Global,
    stock: &Position,
    mask: u8,
    opt: Opt,
    source: SetId,
) -> Result<Formula, AllocError>
    requires { IsOptionOf stock.now.men mask opt }
    ensures tree { IfOk result (λ f. tree_of f ≡ image_of stock.now.men mask opt source.0) }
    ensures means { IfOk result (λ f. IsImage stock.now.men mask opt source.0 (tree_of f)) }
    ensures modest { IfOk result (λ f. IsModest (tree_of f)) }
    ensures names { IfOk result (λ f. NamesOnly source.0 (tracks_of stock.now.men (live_in mask)) (tree_of f)) }
{
    image_at(alloc, stock, mask, opt, source)
}

/// Returns the positions before the step as a tree.
fn pre_at(
    alloc: Global,
    stock: &Position,
    mask: u8,
    opt: Opt,
    sets: StepSets,
) -> Result<Formula, AllocError>
    requires { IsOptionOf stock.now.men mask opt }
    ensures tree { IfOk result (λ f. tree_of f ≡ pre_of stock.now.men mask opt sets.before.0 sets.after.0) }
    ensures few { length stock.now.men ≤ 8 }
{
    let journey = journey(stock, opt.man, opt.ray, opt.taken);
    pre(alloc, live_men(stock, mask), journey, sets)
}

/// Returns the formula of the positions of the set before the step from which a step by the option reaches the set after it. The
/// live men of the first set are those of the mask, and those of the second the same without the captured man.
pub fn pre_formula(
    alloc: Global,
    stock: &Position,
    mask: u8,
    opt: Opt,
    sets: StepSets,
) -> Result<Formula, AllocError>
    requires { IsOptionOf stock.now.men mask opt }
    ensures tree { IfOk result (λ f. tree_of f ≡ pre_of stock.now.men mask opt sets.before.0 sets.after.0) }
    ensures means { IfOk result (λ f. IsPre stock.now.men mask opt sets.before.0 sets.after.0 (tree_of f)) }
    ensures modest { IfOk result (λ f. IsModest (tree_of f)) }
    ensures names { IfOk result (λ f. NamesBeforeAndAfter stock.now.men mask opt sets.before.0 sets.after.0 (tree_of f)) }
{
    pre_at(alloc, stock, mask, opt, sets)
}

/// Returns the positions in which the man attacks the king, as a tree.
fn bear_at(
    alloc: Global,
    stock: &Position,
    mask: u8,
    bearing: Bearing,
    source: SetId,
) -> Result<Formula, AllocError>
    requires { IsBearer stock.now.men mask bearing.man bearing.ray bearing.king }
    ensures tree { IfOk result (λ f. tree_of f
        ≡ bear_of stock.now.men mask bearing.man bearing.ray bearing.king source.0) }
    ensures few { length stock.now.men ≤ 8 }
{
    let journey = journey(stock, bearing.man, bearing.ray, bearing.king);
    bear(alloc, live_men(stock, mask), journey, source)
}

/// Returns the formula of the positions of the set in which the man attacks the king.
pub fn bear_formula(
    alloc: Global,
    stock: &Position,
    mask: u8,
    bearing: Bearing,
    source: SetId,
) -> Result<Formula, AllocError>
    requires { IsBearer stock.now.men mask bearing.man bearing.ray bearing.king }
    ensures tree { IfOk result (λ f. tree_of f
        ≡ bear_of stock.now.men mask bearing.man bearing.ray bearing.king source.0) }
    ensures means { IfOk result (λ f.
        IsBear stock.now.men mask bearing.man bearing.ray bearing.king source.0 (tree_of f)) }
    ensures modest { IfOk result (λ f. IsModest (tree_of f)) }
    ensures names { IfOk result (λ f. NamesOnly source.0 (tracks_of stock.now.men (live_in mask)) (tree_of f)) }
{
    bear_at(alloc, stock, mask, bearing, source)
}

/// Returns the positions in which the man does not attack the king, as a tree.
fn safe_at(
    alloc: Global,
    stock: &Position,
    mask: u8,
    bearing: Bearing,
    source: SetId,
) -> Result<Formula, AllocError>
    requires { IsBearer stock.now.men mask bearing.man bearing.ray bearing.king }
    ensures tree { IfOk result (λ f. tree_of f
        ≡ safe_of stock.now.men mask bearing.man bearing.ray bearing.king source.0) }
    ensures few { length stock.now.men ≤ 8 }
{
    let journey = journey(stock, bearing.man, bearing.ray, bearing.king);
    safe(alloc, live_men(stock, mask), journey, source)
}

/// Returns the formula of the positions of the set in which the man does not attack the king.
pub fn safe_formula(
    alloc: Global,
    stock: &Position,
    mask: u8,
    bearing: Bearing,
    source: SetId,
) -> Result<Formula, AllocError>
    requires { IsBearer stock.now.men mask bearing.man bearing.ray bearing.king }
    ensures tree { IfOk result (λ f. tree_of f
        ≡ safe_of stock.now.men mask bearing.man bearing.ray bearing.king source.0) }
    ensures means { IfOk result (λ f.
        IsSafe stock.now.men mask bearing.man bearing.ray bearing.king source.0 (tree_of f)) }
    ensures modest { IfOk result (λ f. IsModest (tree_of f)) }
    ensures names { IfOk result (λ f. NamesOnly source.0 (tracks_of stock.now.men (live_in mask)) (tree_of f)) }
{
    safe_at(alloc, stock, mask, bearing, source)
}

/// Returns the formula of the positions of the set in which the two men stand on one square.
pub fn twins_formula(
    alloc: Global,
    first: u8,
    second: u8,
    mask: u8,
    source: SetId,
) -> Result<Formula, AllocError>
    requires order { first < second }
    requires first { IsLiveIn mask first }
    requires second { IsLiveIn mask second }
    ensures tree { IfOk result (λ f. tree_of f ≡ twins_tree 8 mask first second source.0) }
    ensures means { IfOk result (λ f. IsTwins mask first second source.0 (tree_of f)) }
    ensures modest { IfOk result (λ f. IsModest (tree_of f)) }
    ensures names { IfOk result (λ f. NamesOnly source.0 (vars_to own_seat (live_in mask) 8) (tree_of f)) }
{
    twins(
        alloc,
        LiveMen { count: 8, mask },
        ManPair { first, second },
        source,
    )
}
