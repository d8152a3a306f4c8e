//! The numbers that are in a set, and those that are not.
ghost use Rattle.std.specs.Prelude.{◌≡◌, ◌^◌, ◌<◌, ◌↔◌, IfOk, IsTrue, false, length, true};
ghost use Rattle.auto_core.specs.Integers.{DecidesIntegers};
ghost use Rattle.auto_numbers.specs.Numbers.{Has, IsNextFound};

use crate::bits::MOST_BITS;
use crate::least::next;
use crate::outlook::Outlook;
use auto_core::Auto;
use std::alloc::{AllocError, Global};

/// The set of a one-track automaton, prepared for queries.
#[derive(Drop)]
pub struct NumberSet<'a> {
    pub auto: &'a Auto,
    members: Outlook<'a>,
    others: Outlook<'a>,
    ghost decides: { DecidesIntegers auto.now },
    ghost members_auto: { members.auto.now ≡ auto.now },
    ghost members_flag: { members.flag ≡ true },
    ghost others_auto: { others.auto.now ≡ auto.now },
    ghost others_flag: { others.flag ≡ false },
}

impl<'a> NumberSet<'a> {
    /// Prepares the set. Allocates 32 bytes for each state, and half as much again temporarily. Each query then allocates nothing
    /// and takes about 200 steps. Errors: an allocation failed.
    pub fn new(alloc: Global, a: &'a Auto) -> Result<NumberSet<'a>, AllocError>
        requires one { length a.now.tracks ≡ 1 }
        requires decides { DecidesIntegers a.now }
        ensures { IfOk result (λ set. set.auto.now ≡ a.now) }
    {
        let members = Outlook::new(alloc, a, true)?;
        let others = Outlook::new(alloc, a, false)?;
        Ok(NumberSet {
            auto: a,
            members,
            others,
        })
    }

    /// Returns the least number from `low` on that is in the set and has at most `MOST_BITS` bits.
    pub fn next_member(&self, low: u128) -> Option<u128>
        requires { low < 2 ^ MOST_BITS }
        ensures { IsNextFound (Has self.now.auto.now) low result }
    {
        next(&self.members, low)
    }

    /// Returns the least number from `low` on that is not in the set and has at most `MOST_BITS` bits.
    pub fn next_other(&self, low: u128) -> Option<u128>
        requires { low < 2 ^ MOST_BITS }
        ensures { IsNextFound (λ t. ¬ Has self.now.auto.now t) low result }
    {
        next(&self.others, low)
    }

    /// Returns whether a number is in the set.
    pub fn has(&self, number: u128) -> bool
        requires { number < 2 ^ MOST_BITS }
        ensures { IsTrue result ↔ Has self.now.auto.now number }
    {
        match self.next_member(number) {
            Some(found) => found == number,
            None => false,
        }
    }
}
