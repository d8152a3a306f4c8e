//! The men of a position by number, and those of a mask.

ghost use Rattle.std.specs.Prelude.{◌≡◌, ◌≤◌, Some, length};
ghost use Rattle.rule_formula.specs.Placed.{is_live as live_in};
ghost use Rattle.game_laws.specs.Stock.{stock_man};

use chess_game::Position;
use game_rules::{Man, Side};

/// Returns the man with this number, from 1.
#[tactic(auto, using(crate::proofs::PlacedLemmas::numbers))]
pub(crate) fn man_of(stock: &Position, number: u8) -> Man
    requires low { 1 ≤ number }
    requires high { number ≤ length stock.now.men }
    ensures { stock_man stock.now.men number ≡ Some result }
{
    stock.man(number)
}

/// Returns whether the man with this number is in the mask.
pub(crate) fn is_live(mask: u8, number: u8) -> bool
    requires low { 1 ≤ number }
    requires high { number ≤ 8 }
    ensures { result ≡ live_in mask number }
{
    mask >> (number - 1) & 1 == 1
}

/// The men of a mask, out of a number of men.
#[derive(Clone, Copy)]
pub(crate) struct LiveMen {
    pub(crate) count: u8,
    pub(crate) mask: u8,
    ghost few: { count ≤ 8 },
}

/// Returns the men of the mask, out of those of the position.
pub(crate) fn live_men(stock: &Position, mask: u8) -> LiveMen
    ensures count { result.count ≡ length stock.now.men }
    ensures mask { result.mask ≡ mask }
{
    LiveMen {
        count: stock.count(),
        mask,
    }
}

/// The men of a side in a mask.
#[derive(Clone, Copy)]
pub(crate) struct Force {
    pub(crate) mask: u8,
    pub(crate) side: Side,
}
