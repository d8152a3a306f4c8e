//! A path of options, and the men after it.

ghost use Rattle.std.specs.Prelude.{◌≡◌, ◌∷◌, ◌<◌, ◌≤◌, IfOk, Some, length, true};
ghost use Rattle.game_rules.specs.Game.{square_of};
ghost use Rattle.mask_sets.specs.Stock.{live_bit as bit_of, mask_of_men};
ghost use Rattle.rule_formula.specs.Fits.{mask_without, target_of};
ghost use Rattle.rule_formula.specs.Placed.{is_live};
ghost use Rattle.line_formula.specs.Paths.{leg_of};
ghost use Rattle.line_plan.specs.Plan.{distances as distances_to, distances_from};

use game_rules::{Man, Place};
use line_formula::{Leg, ray_at};
use rule_formula::Opt;
use std::alloc::{AllocError, Global};
use track_word::Var;

/// Returns the leg of a path that an option is.
pub(crate) fn leg(men: &[Man], option: Opt) -> Leg
    requires low { 1 ≤ option.man }
    requires high { option.man ≤ length men.now }
    ensures { result ≡ leg_of men.now option }
{
    Leg {
        man: option.man,
        ray: ray_at(men, option.man, option.ray),
    }
}

/// The mask without the man of this number.
#[tactic(auto, using(rule_formula::proofs::MaskLemmas::bits))]
fn without(mask: u32, taken: u8) -> u32
    requires low { 1 ≤ taken }
    requires high { taken ≤ 32 }
    requires live { is_live mask taken ≡ true }
    ensures { result ≡ mask_without mask taken }
{
    mask - (1 << (taken - 1))
}

/// Returns the mask of the live men after a move by the option from a position with this mask.
pub(crate) fn target(option: Opt, mask: u32) -> u32
    requires high { option.taken ≤ 32 }
    requires live { 0 < option.taken → is_live mask option.taken ≡ true }
    ensures { result ≡ target_of mask option }
{
    if option.taken == 0 {
        mask
    } else {
        without(mask, option.taken)
    }
}

/// Returns a list with one more element at the front.
pub(crate) fn with_first<T: Copy>(alloc: Global, first: T, rest: &[T]) -> Result<Vec<T>, AllocError>
    ensures { IfOk result (λ all. all.items ≡ first ∷ rest.now) }
{
    let mut all = Vec::new(alloc);
    all.push(first)?;
    for item in rest {
        all.push(*item)?;
    }
    Ok(all)
}

/// Returns the mask of the live men.
#[tactic(auto, using(crate::proofs::NodeLemmas::masks))]
pub(crate) fn mask_of(men: &[Man]) -> u32
    requires { length men.now ≤ 32 }
    ensures { result ≡ mask_of_men men.now }
{
    match men {
        [] => 0,
        [man, rest @ ..] => live_bit(*man) + 2 * mask_of(rest),
    }
}

/// Returns the bit of a man: 1 if and only if he is live.
fn live_bit(man: Man) -> u32
    ensures { result ≡ bit_of (square_of man) }
{
    match man.place {
        Place::Gone => 0,
        Place::At { .. } => 1,
    }
}

/// Returns the variables of `count` distances.
#[tactic(auto, using(crate::proofs::NodeLemmas::distance_lists))]
pub(crate) fn distances(alloc: Global, count: u8) -> Result<Vec<Var>, AllocError>
    requires { count ≤ 16 }
    ensures { IfOk result (λ vars. vars.items ≡ distances_to count) }
{
    let mut vars = Vec::new(alloc);
    for n in 0..count {
        vars.push(Var(n))?;
    }
    Ok(vars)
}
