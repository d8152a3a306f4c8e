//! The pairs of live men.

ghost use Rattle.std.specs.Prelude.{◌≡◌, ◌↔◌, ◌≤◌, ◌++◌, Contains, IfOk, OnOk};
ghost use Rattle.rule_formula.specs.declared.opt.ManPair.{ManPair};
ghost use Rattle.rule_formula.specs.Pairs.{IsPairOf, is_later as later_in, later_to, man_pairs, pairs_of};

use crate::opt::ManPair;
use crate::stock::is_live;
use chess_game::Position;
use std::alloc::{AllocError, Global};

/// A list of pairs of men: ten for five men, 28 for eight.
type Pairs = Vec<ManPair>;

/// Returns whether the second man is live and has a greater number than the first.
fn is_later(mask: u8, first: u8, second: u8) -> bool
    requires low { 1 ≤ second }
    requires high { second ≤ 8 }
    ensures { result ≡ later_in mask first second }
{
    first < second && is_live(mask, second)
}

/// Appends the pairs of a man with each later live one among the first men.
fn push_later(pairs: &mut Pairs, mask: u8, first: u8, count: u8) -> Result<(), AllocError>
    requires { count ≤ 8 }
    ensures { OnOk result (pairs.new.items ≡ pairs.old.items ++ later_to mask first count) }
{
    for n in 0..count {
        let second = n + 1;
        if is_later(mask, first, second) {
            pairs.push(ManPair { first, second })?;
        }
    }
    Ok(())
}

/// Appends the pairs of a man with each later live one, if he is live.
fn push_man(pairs: &mut Pairs, mask: u8, first: u8, count: u8) -> Result<(), AllocError>
    requires low { 1 ≤ first }
    requires high { first ≤ count }
    requires few { count ≤ 8 }
    ensures { OnOk result (pairs.new.items ≡ pairs.old.items ++ man_pairs mask count first) }
{
    if !is_live(mask, first) {
        return Ok(());
    }
    push_later(pairs, mask, first, count)
}

/// Returns the list.
fn list(alloc: Global, stock: &Position, mask: u8) -> Result<Pairs, AllocError>
    ensures { IfOk result (λ all. all.items ≡ pairs_of stock.now.men mask) }
{
    let count = stock.count();
    let mut pairs = Vec::new(alloc);
    for n in 0..count {
        push_man(&mut pairs, mask, n + 1, count)?;
    }
    Ok(pairs)
}

/// Returns the pairs of live men of the mask, ordered by the first man and then by the second.
pub fn pairs(alloc: Global, stock: &Position, mask: u8) -> Result<Vec<ManPair>, AllocError>
    ensures list { IfOk result (λ all. all.items ≡ pairs_of stock.now.men mask) }
    ensures exact { IfOk result (λ all. (w : ManPair) → Contains all.items w ↔ IsPairOf stock.now.men mask w) }
{
    list(alloc, stock, mask)
}
