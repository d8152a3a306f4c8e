//! Options, attacks, pairs of men, and the sets of a step.

ghost use Rattle.std.specs.Prelude.{◌≡◌, ◌<◌};
ghost use Rattle.rule_formula.specs.Fits.{mask_without, target_of};
ghost use Rattle.rule_formula.specs.Placed.{IsLiveIn};

use lin_formula::SetId;

/// Returns the mask without the man with this number.
#[tactic(auto, using(crate::proofs::MaskLemmas::bits))]
fn without(mask: u8, taken: u8) -> u8
    requires { IsLiveIn mask taken }
    ensures { result ≡ mask_without mask taken }
{
    mask - (1 << (taken - 1))
}

/// An option: a move type, whose distance is open.
#[derive(Clone, Copy, Default, PartialEq, Eq)]
pub struct Opt {
    /// The number of the man, from 1.
    pub man: u8,
    /// The index of one of his rays in the table of his kind, from 0.
    pub ray: u8,
    /// The number of the captured man, or 0 for a move onto an empty square.
    pub taken: u8,
}

impl Opt {
    /// Returns the mask of the men that are live after a step by the option from a position with this mask.
    pub fn target(self, mask: u8) -> u8
        requires { 0 < self.taken → IsLiveIn mask self.taken }
        ensures { result ≡ target_of mask self }
    {
        if self.taken == 0 {
            mask
        } else {
            without(mask, self.taken)
        }
    }
}

/// An attack direction of a man against a king.
#[derive(Clone, Copy, Default, PartialEq, Eq)]
pub struct Bearing {
    /// The number of the man, from 1.
    pub man: u8,
    /// The index of one of his rays in the table of his kind, from 0.
    pub ray: u8,
    /// The number of the king, from 1.
    pub king: u8,
}

/// Two men.
#[derive(Clone, Copy, Default, PartialEq, Eq)]
pub struct ManPair {
    /// The number of the first man, from 1.
    pub first: u8,
    /// The number of the second man, which is greater.
    pub second: u8,
}

/// The sets of positions before and after a step.
#[derive(Clone, Copy, PartialEq, Eq)]
pub struct StepSets {
    pub before: SetId,
    pub after: SetId,
}
