//! The numbers of bits by which the states of an automaton reach a flag.
ghost use Rattle.std.specs.Prelude.{◌≡◌, ◌+◌, ◌<◌, ◌≤◌, IfOk, false, length, true};
ghost use Rattle.auto_numbers.specs.declared.bits.TheConstants.{MOST_BITS};
ghost use Rattle.auto_numbers.specs.Outlook.{AreMasks, IsMask};
ghost use Rattle.auto_numbers.specs.Reading.{LeadsNone};

use crate::bits::MOST_BITS;
use crate::reading::next_states;
use auto_core::Auto;
use std::alloc::{AllocError, Global};

/// The numbers of bits by which each state of an automaton reaches a state with a flag.
#[derive(Drop)]
pub struct Outlook<'a> {
    pub auto: &'a Auto,
    pub flag: bool,
    /// For each state a bit for each number of bits: whether this many bits lead to the flag.
    pub masks: Vec<u128>,
    ghost one: { length auto.now.tracks ≡ 1 },
    ghost are: { AreMasks auto.now flag MOST_BITS (length auto.now.accept) masks.items },
}

impl<'a> Outlook<'a> {
    /// Computes the masks; iterates over the states once for each number of bits. Allocates 16 bytes for each state, and twice that
    /// temporarily. Errors: an allocation failed.
    pub fn new(alloc: Global, a: &'a Auto, flag: bool) -> Result<Outlook<'a>, AllocError>
        requires one { length a.now.tracks ≡ 1 }
        ensures auto { IfOk result (λ made. made.auto.now ≡ a.now) }
        ensures flag { IfOk result (λ made. made.flag ≡ flag) }
    {
        let mut masks = at_once(alloc, a, flag)?;
        for most in 0..MOST_BITS {
            masks = one_bit_more(alloc, a, flag, most, masks.as_slice())?;
        }
        Ok(Outlook {
            auto: a,
            flag,
            masks,
        })
    }

    /// Returns whether some number of `bits` bits leads from the state to the flag.
    pub fn leads(&self, state: u32, bits: u8) -> bool
        requires known { state < length self.now.auto.now.accept }
        requires bits { bits ≤ MOST_BITS }
        ensures some { result ≡ true → ¬ LeadsNone self.now.auto.now self.now.flag state bits 0 }
        ensures none { result ≡ false → LeadsNone self.now.auto.now self.now.flag state bits 0 }
    {
        (self.masks[state as usize] >> bits) & 1 == 1
    }
}

/// Returns the masks for no bits.
fn at_once(alloc: Global, a: &Auto, flag: bool) -> Result<Vec<u128>, AllocError>
    ensures { IfOk result (λ masks. AreMasks a.now flag 0 (length a.now.accept) masks.items) }
{
    let mut masks = Vec::new(alloc);
    for state in 0..a.states() {
        masks.push(own_bit(a, flag, state))?;
    }
    Ok(masks)
}

/// Returns the mask bit for no bits: 1 if the state has the flag.
fn own_bit(a: &Auto, flag: bool, state: u32) -> u128
    requires known { state < length a.now.accept }
    ensures bit { result < 2 }
    ensures mask { IsMask a.now flag 0 state result }
{
    if a.accept_of(state) == flag { 1 } else { 0 }
}

/// Returns the masks for up to one bit more.
fn one_bit_more(
    alloc: Global,
    a: &Auto,
    flag: bool,
    most: u8,
    masks: &[u128],
) -> Result<Vec<u128>, AllocError>
    requires one { length a.now.tracks ≡ 1 }
    requires most { most < MOST_BITS }
    requires masks { AreMasks a.now flag most (length a.now.accept) masks.now }
    ensures { IfOk result (λ more. AreMasks a.now flag (most + 1) (length a.now.accept) more.items) }
{
    let mut more = Vec::new(alloc);
    for state in 0..a.states() {
        let (low, high) = next_states(a, state);
        let later = masks[low as usize] | masks[high as usize];
        more.push(2 * later + own_bit(a, flag, state))?;
    }
    Ok(more)
}
