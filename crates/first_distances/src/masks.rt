//! The possible masks after a move.
ghost use Rattle.std.specs.Prelude.{◌≡◌, ◌≤◌, ◌++◌, ◌∷◌, [], if◌then◌else◌, IfOk, OnOk, length};
ghost use Rattle.mask_sets.specs.Stock.{mask_of};
ghost use Rattle.rule_formula.specs.Fits.{mask_without};
ghost use Rattle.rule_formula.specs.Options.{is_prey as prey_of};
ghost use Rattle.rule_formula.specs.Placed.{IsLiveIn, is_live as live_in};
ghost use Rattle.first_distances.specs.RayFormula.{masks_after as all_masks};

use chess_game::Position;
use rule_formula::{Opt, is_king, is_side};
use std::alloc::{AllocError, Global};

/// Returns whether man k is in the mask.
pub(crate) fn is_live(mask: u8, k: u8) -> bool
    requires low { 1 ≤ k }
    requires high { k ≤ 8 }
    ensures { result ≡ live_in mask k }
{
    mask >> (k - 1) & 1 == 1
}

/// The mask of the live men.
fn live_mask(p: &Position) -> u8
    ensures { result ≡ mask_of p.now }
{
    p.mask()
}

/// Whether man k is a live man of the side that is not to move, and not its king.
fn is_prey(p: &Position, k: u8) -> bool
    requires low { 1 ≤ k }
    requires high { k ≤ length p.now.men }
    ensures { result ≡ prey_of p.now.men (mask_of p.now) p.now.turn k }
{
    let _ = p.count(); // for its invariant
    let man = p.man(k);
    is_live(live_mask(p), k) && !is_side(man.side, p.turn()) && !is_king(man.kind)
}

/// The mask of the live men without this one.
fn without(p: &Position, taken: u8) -> u8
    requires { IsLiveIn (mask_of p.now) taken }
    ensures { result ≡ mask_without (mask_of p.now) taken }
{
    let capture = Opt {
        man: 0,
        ray: 0,
        taken,
    };
    capture.target(live_mask(p))
}

/// Adds the mask after the capture of man k, if he can be captured.
fn push_capture(all: &mut Vec<u8>, p: &Position, k: u8) -> Result<(), AllocError>
    requires low { 1 ≤ k }
    requires high { k ≤ length p.now.men }
    ensures { OnOk result (all.new.items ≡ (if prey_of p.now.men (mask_of p.now) p.now.turn k then all.old.items ++ mask_without (mask_of p.now) k ∷ [] else all.old.items)) }
{
    let _ = p.count(); // for its invariant
    if is_prey(p, k) {
        all.push(without(p, k))?;
    }
    Ok(())
}

/// Returns the possible masks after a move of the side to move: that of the position, and those after a capture.
pub(crate) fn masks_after(alloc: Global, p: &Position) -> Result<Vec<u8>, AllocError>
    ensures all { IfOk result (λ all. all.items ≡ all_masks p.now) }
    ensures few { IfOk result (λ all. length all.items ≤ 9) }
{
    let mut all = vec![in alloc; live_mask(p)]?;
    for n in 0..p.count() {
        push_capture(&mut all, p, n + 1)?;
    }
    Ok(all)
}
