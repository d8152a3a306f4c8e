//! The kings of a stock.

ghost use Rattle.std.specs.Prelude.{◌≡◌, ◌↔◌, ◌<◌, ◌≤◌, ◌&&◌, Some, length, slice_get, IsOk, IfErr, OnOk};
ghost use Rattle.stock_text.specs.Kings.{HasKings, IsFirstFault, king_count};
ghost use Rattle.stock_text.specs.Kings as specs;

use crate::stock::{Stock, StockMan};
use chess_game::{Kind, Side};

/// Why no table has the kings of a stock, in the order in which reasons are reported; White's come before Black's.
#[derive(Clone, Copy, PartialEq, Eq)]
pub enum KingFault {
    /// No man of this side, the loser, is a king.
    NoKing(Side),
    /// Two or more men of the side are kings.
    ManyKings(Side),
}

/// Returns whether both sides are the same.
fn same_side(one: Side, other: Side) -> bool
    ensures { result ≡ specs.same_side one other }
{
    match one {
        Side::White => match other {
            Side::White => true,
            Side::Black => false,
        },
        Side::Black => match other {
            Side::White => false,
            Side::Black => true,
        },
    }
}

/// Returns whether the kind is a king.
fn is_king(kind: Kind) -> bool
    ensures { result ≡ specs.is_king kind }
{
    match kind {
        Kind::King => true,
        Kind::Queen
        | Kind::Rook
        | Kind::Bishop
        | Kind::Knight
        | Kind::Pawn
        | Kind::Chancellor
        | Kind::Archbishop
        | Kind::Amazon
        | Kind::Nightrider => false,
    }
}

/// Returns whether the man is a king of the side.
fn is_king_of(side: Side, man: StockMan) -> bool
    ensures { result ≡ specs.is_king_of side man }
{
    same_side(side, man.side) && is_king(man.kind)
}

/// Returns the man of this index.
fn man_of(men: &[StockMan], index: usize) -> StockMan
    requires { index < length men.now }
    ensures { slice_get men.now index ≡ Some result }
{
    men[index]
}

/// Returns how many of the men are kings of the side.
fn count_kings(men: &[StockMan], side: Side) -> usize
    ensures { result ≡ king_count side men.now }
{
    let mut count = 0;
    for index in 0..men.len() {
        if is_king_of(side, man_of(men, index)) {
            count += 1;
        }
    }
    count
}

/// Refuses two kings of a side.
fn check_few(stock: &Stock, side: Side) -> Result<(), KingFault>
    ensures few { OnOk result (king_count side stock.now.men ≤ 1) }
    ensures many { IfErr result (λ f. (f ≡ KingFault.ManyKings side) × (2 ≤ king_count side stock.now.men)) }
{
    if count_kings(stock.men(), side) > 1 {
        return Err(KingFault::ManyKings(side));
    }
    Ok(())
}

/// Returns whether the loser has exactly one king and the winner at most one. The error is the first reason why not.
#[tactic(auto, using(crate::proofs::KingLemmas::kings_fine, crate::proofs::KingLemmas::no_king, crate::proofs::KingLemmas::many_white, crate::proofs::KingLemmas::many_black))]
fn find_fault(stock: &Stock) -> Result<(), KingFault>
    ensures ok { OnOk result (HasKings stock.now) }
    ensures reason { IfErr result (IsFirstFault stock.now) }
{
    let loser = stock.winner().other();
    if count_kings(stock.men(), loser) == 0 {
        return Err(KingFault::NoKing(loser));
    }
    check_few(stock, Side::White)?;
    check_few(stock, Side::Black)?;
    Ok(())
}

/// Returns whether the loser has exactly one king and the winner at most one. The error is the first reason why not.
#[tactic(auto, using(crate::proofs::KingLemmas::fault_refuted))]
pub fn check_kings(stock: &Stock) -> Result<(), KingFault>
    ensures ok { IsOk result ↔ HasKings stock.now }
    ensures reason { IfErr result (IsFirstFault stock.now) }
{
    find_fault(stock)
}
