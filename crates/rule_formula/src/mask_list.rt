//! The sets of men that may be live in a game.

ghost use Rattle.std.specs.Prelude.{◌≡◌, ◌↔◌, ◌≤◌, ◌++◌, ◌∷◌, [], if◌then◌else◌, ℕ, Contains, IfOk, OnOk, length};
ghost use Rattle.rule_formula.specs.Fits.{IsGameMask, has_kings as kings_in, is_game_mask as in_game, is_part as part_of, masks_of};
ghost use Rattle.mask_sets.specs.Stock.{mask_of};

use crate::choices::is_king;
use crate::stock::{is_live, man_of};
use chess_game::Position;
use std::alloc::{AllocError, Global};

/// The masks of a position. Five men have eight and seven men 32, if both kings are among them.
type Masks = Vec<u8>;

/// Returns whether all bits of the first are bits of the second.
fn is_part(a: u8, b: u8) -> bool
    ensures { result ≡ part_of a b }
{
    a & b == a
}

/// Returns whether each king among the first men is in the mask.
fn has_kings(stock: &Position, mask: u8, count: u8) -> bool
    requires men { count ≤ length stock.now.men }
    requires few { count ≤ 8 }
    ensures { result ≡ kings_in stock.now.men mask count }
{
    count == 0
        || ((!is_king(man_of(stock, count).kind) || is_live(mask, count))
            && has_kings(stock, mask, count - 1))
}

/// Returns the mask of the live men.
fn live_mask(p: &Position) -> u8
    ensures { result ≡ mask_of p.now }
{
    p.mask()
}

/// Returns whether the mask contains only live men, and each king.
fn is_game_mask(p: &Position, live: u8, mask: u8) -> bool
    requires { live ≡ mask_of p.now }
    ensures { result ≡ in_game p.now mask }
{
    is_part(mask, live) && has_kings(p, mask, p.count())
}

/// Appends the mask, if it is one of the position.
fn push_mask(all: &mut Masks, p: &Position, live: u8, mask: u8) -> Result<(), AllocError>
    requires { live ≡ mask_of p.now }
    ensures { OnOk result (all.new.items ≡ (if in_game p.now mask then all.old.items ++ mask ∷ [] else all.old.items)) }
{
    if is_game_mask(p, live, mask) {
        all.push(mask)?;
    }
    Ok(())
}

/// Returns the list.
fn list(alloc: Global, p: &Position) -> Result<Masks, AllocError>
    ensures { IfOk result (λ all. all.items ≡ masks_of p.now) }
{
    let live = live_mask(p);
    let mut all = Vec::new(alloc);
    for mask in 0..live {
        push_mask(&mut all, p, live, mask)?;
    }
    push_mask(&mut all, p, live, live)?;
    Ok(all)
}

/// Returns the masks of the position in ascending order: the sets of its live men that contain each king.
pub fn masks(alloc: Global, p: &Position) -> Result<Vec<u8>, AllocError>
    ensures list { IfOk result (λ all. all.items ≡ masks_of p.now) }
    ensures exact { IfOk result (λ all. (m : ℕ) → Contains all.items m ↔ IsGameMask p.now m) }
{
    list(alloc, p)
}
