//! Sets of positions, one automaton for each mask.
ghost use Rattle.std.specs.Prelude.{◌≡◌, ◌≢◌, ◌↔◌, ◌<◌, ℕ, IfNone, IfSome, IsTrue, length, option_copied, slice_get, slice_index};
ghost use Rattle.mask_sets.specs.Sets.{IsAskable, IsIn, set_at};

use crate::tuple::coordinates;
use auto_core::Auto;
use chess_game::Position;
use std::marker::Model;

/// Returns the index of a mask in a list of masks, if it is there.
pub fn place_of_mask(masks: &[u8], mask: u8) -> Option<usize>
    ensures within { IfSome result (λ k. k < length masks.now) }
    ensures found { IfSome result (λ k. slice_index masks.now k ≡ mask) }
    ensures before { IfSome result (λ k. (j : ℕ) → j < k → slice_index masks.now j ≢ mask) }
    ensures none { IfNone result ((j : ℕ) → j < length masks.now → slice_index masks.now j ≢ mask) }
{
    for (k, other) in masks.iter().enumerate() {
        if *other == mask {
            return Some(k);
        }
    }
    None
}

/// Returns the set at an index, if there is one.
fn set_in(sets: &[Auto], k: usize) -> Option<&Auto>
    ensures { option_copied result ≡ slice_get sets.now k }
{
    if k < sets.len() { Some(&sets[k]) } else { None }
}

/// Sets of positions: one automaton for each mask of a list, in that order. Masks after the last automaton have none.
#[derive(Drop)]
pub struct MaskSets<'a> {
    masks: &'a [u8],
    sets: &'a [Auto],
}

impl<'a> Model for MaskSets<'a> {
    ghost use Rattle.mask_sets.specs.Sets.{Table};

    ghost Value = { Table };

    ghost view = { λ s. record { masks = s.masks.now; sets = s.sets.now } };
}

impl<'a> MaskSets<'a> {
    /// Creates the sets from masks and their automata.
    pub fn new(masks: &'a [u8], sets: &'a [Auto]) -> MaskSets<'a>
        ensures { result ≡ record { masks = masks.now; sets = sets.now } }
    {
        MaskSets { masks, sets }
    }

    /// Returns the automaton of a mask, if there is one.
    pub fn get(&self, mask: u8) -> Option<&'a Auto>
        ensures { option_copied result ≡ set_at self.now mask }
    {
        match place_of_mask(self.masks, mask) {
            Some(k) => set_in(self.sets, k),
            None => None,
        }
    }

    /// Returns whether the coordinates of the position are in the set of its own mask.
    pub fn contains(&self, p: &Position) -> bool
        requires { IsAskable self.now p.now }
        ensures { IsTrue result ↔ IsIn self.now p.now }
    {
        match self.get(p.mask()) {
            Some(set) => set.member(coordinates(p).as_slice()),
            None => false,
        }
    }
}
