//! The attack directions of the men of a side against the other side's king.

ghost use Rattle.std.specs.Prelude.{◌≡◌, ◌↔◌, ◌≤◌, ◌++◌, Contains, IfOk, OnOk, Some, length};
ghost use Rattle.game_rules.specs.declared.men.Side.{Side};
ghost use Rattle.game_rules.specs.Game.{HasKings};
ghost use Rattle.rule_formula.specs.declared.opt.Bearing.{Bearing};
ghost use Rattle.rule_formula.specs.Bearings.{IsBearingOf, along_rays, bearings_of, is_king_man, king_number as number_of_king, king_to, man_bearings};
ghost use Rattle.rule_formula.specs.Fits.{IsGameMask};

use crate::choices::{is_king, is_side, serves_captures};
use crate::opt::Bearing;
use crate::stock::{Force, is_live, man_of};
use chess_game::{Position, ray_count};
use game_rules::{Kind, Man, Side};
use std::alloc::{AllocError, Global};

/// A list of attack directions, mostly short.
type Bearings = Vec<Bearing>;

/// Returns whether the man is the king of the side.
fn is_king_of(man: Man, side: Side) -> bool
    ensures { result ≡ is_king_man side (Some man) }
{
    is_side(man.side, side) && is_king(man.kind)
}

/// Returns the number of the side's king, or 0.
fn king_number(stock: &Position, side: Side) -> u8
    ensures { result ≡ number_of_king stock.now.men side }
{
    king_among(stock, side, stock.count())
}

/// Returns the number of the last king of the side among the first men, or 0.
fn king_among(stock: &Position, side: Side, count: u8) -> u8
    requires { count ≤ length stock.now.men }
    ensures { result ≡ king_to stock.now.men side count }
{
    if count == 0 {
        0
    } else if is_king_of(man_of(stock, count), side) {
        count
    } else {
        king_among(stock, side, count - 1)
    }
}

fn push_rays(
    bearings: &mut Bearings,
    kind: Kind,
    man: u8,
    king: u8,
    count: u8,
) -> Result<(), AllocError>
    ensures { OnOk result (bearings.new.items ≡ bearings.old.items ++ along_rays kind man king count) }
{
    for ray in 0..count {
        if serves_captures(kind, ray) {
            bearings.push(Bearing { man, ray, king })?;
        }
    }
    Ok(())
}

fn push_man(
    bearings: &mut Bearings,
    force: Force,
    king: u8,
    number: u8,
    man: Man,
) -> Result<(), AllocError>
    requires low { 1 ≤ number }
    requires high { number ≤ 8 }
    ensures { OnOk result
        (bearings.new.items ≡ bearings.old.items ++ man_bearings force.mask force.side king number (Some man)) }
{
    if !(is_live(force.mask, number) && is_side(man.side, force.side)) {
        return Ok(());
    }
    let count = ray_count(man.kind, man.side);
    push_rays(bearings, man.kind, number, king, count)
}

/// Returns the list.
fn list(alloc: Global, stock: &Position, force: Force) -> Result<Bearings, AllocError>
    ensures { IfOk result (λ all. all.items ≡ bearings_of stock.now.men force.mask force.side) }
{
    let king = king_number(stock, force.side.other());
    let mut bearings = Vec::new(alloc);
    if king == 0 {
        return Ok(bearings);
    }
    for n in 0..stock.count() {
        let number = n + 1;
        let man = man_of(stock, number);
        push_man(&mut bearings, force, king, number, man)?;
    }
    Ok(bearings)
}

/// Returns the possible attacks of the side's men on the other side's king if the men of the mask are live, ordered by man and then
/// by ray. Empty if there is no such king.
pub fn bearings(
    alloc: Global,
    stock: &Position,
    mask: u8,
    side: Side,
) -> Result<Vec<Bearing>, AllocError>
    requires kings { HasKings stock.now }
    requires mask { IsGameMask stock.now mask }
    ensures list { IfOk result (λ all. all.items ≡ bearings_of stock.now.men mask side) }
    ensures exact { IfOk result (λ all. (b : Bearing) → Contains all.items b ↔ IsBearingOf stock.now.men mask side b) }
{
    list(alloc, stock, Force { mask, side })
}
