//! The maximum number of bits by which states reach acceptance.
ghost use Rattle.std.specs.Prelude.{◌≡◌, ◌+◌, ◌<◌, ◌≤◌, IfOk, length, true, false, slice_index_or};
ghost use Rattle.auto_core.specs.Automaton.{next_state, is_final};
ghost use Rattle.auto_core.specs.Reduced.{IsReduced};
ghost use Rattle.auto_numbers.specs.Lengths.{AreLengths, GoesOn, IsLength, IsSettled, after_one, longer_of, unknowns, with_flag};
ghost use Rattle.auto_numbers.specs.declared.length.Length.TheVariants.{Unknown};

use crate::reading::next_states;
use auto_core::Auto;
use std::alloc::{AllocError, Global};

/// The greatest length that is represented: with a leading bit 1 it gives a number of `GREATEST_BITS` bits.
const LONGEST: u8 = 99;

/// The maximum number of bits by which a state reaches acceptance.
#[derive(Clone, Copy, PartialEq, Eq)]
pub enum Length {
    /// It is not known yet whether there is a maximum. Some bits lead to acceptance.
    Unknown,
    /// No bits lead to acceptance.
    Nothing,
    /// This number, at most `LONGEST`.
    UpTo(u8),
    /// There is a maximum, and it exceeds `LONGEST`.
    Long,
}

/// Returns the lengths of all states of a minimal automaton. Iterates over the states until no length is found, at most once more
/// than the longest chain of states with lengths. Errors: an allocation failed.
pub(crate) fn lengths(alloc: Global, a: &Auto) -> Result<Vec<Length>, AllocError>
    requires one { length a.now.tracks ≡ 1 }
    requires reduced { IsReduced a.now }
    ensures are { IfOk result (λ made. AreLengths a.now made.items) }
    ensures settled { IfOk result (λ made. IsSettled a.now made.items) }
{
    let mut lengths = Vec::new(alloc);
    for state in 0..a.states() {
        lengths.push(first_length(a, state))?;
    }
    'passes: while settle(a, lengths.as_mut_slice()) {}
    Ok(lengths)
}

/// Returns what is known of a state at first: a rejecting state that each bit leads back to reaches no acceptance. In a minimal
/// automaton some bits lead from each other state to acceptance.
fn first_length(a: &Auto, state: u32) -> Length
    requires one { length a.now.tracks ≡ 1 }
    requires reduced { IsReduced a.now }
    requires known { state < length a.now.accept }
    ensures { IsLength a.now state result }
{
    let (low, high) = next_states(a, state);
    if low == state && high == state && !a.accept_of(state) {
        Length::Nothing
    } else {
        Length::Unknown
    }
}

/// Returns the length of a state from a list of all.
pub(crate) fn length_at(lengths: &[Length], state: u32) -> Length
    requires { state < length lengths.now }
    ensures { result ≡ slice_index_or lengths.now state Unknown }
{
    lengths[state as usize]
}

/// Iterates over the states once, and finds the lengths of those whose next states both have lengths. Returns whether it found any.
fn settle(a: &Auto, lengths: &mut [Length]) -> bool
    requires one { length a.now.tracks ≡ 1 }
    requires are { AreLengths a.now lengths.old }
    ensures are { AreLengths a.now lengths.new }
    ensures fewer { result ≡ true → unknowns lengths.new + 1 ≤ unknowns lengths.old }
    ensures settled { result ≡ false → IsSettled a.now lengths.new }
{
    let mut found = false;
    for state in 0..a.states() {
        if settle_state(a, lengths, state) {
            found = true;
        }
    }
    found
}

/// Finds the length of a state that has none, if its next states both have lengths. Returns whether it did.
fn settle_state(a: &Auto, lengths: &mut [Length], state: u32) -> bool
    requires one { length a.now.tracks ≡ 1 }
    requires are { AreLengths a.now lengths.old }
    requires known { state < length a.now.accept }
    ensures are { AreLengths a.now lengths.new }
    ensures fewer { result ≡ true → unknowns lengths.new + 1 ≤ unknowns lengths.old }
    ensures same { result ≡ false → lengths.new ≡ lengths.old }
    ensures settled { result ≡ false → slice_index_or lengths.old state Unknown ≡ Unknown → GoesOn a.now lengths.old state }
{
    if lengths[state as usize] != Length::Unknown {
        return false;
    }
    let length = length_of(a, lengths, state);
    if length == Length::Unknown {
        return false;
    }
    lengths[state as usize] = length;
    true
}

/// Returns the length of a state that has none, from those of its next states.
fn length_of(a: &Auto, lengths: &[Length], state: u32) -> Length
    requires one { length a.now.tracks ≡ 1 }
    requires are { AreLengths a.now lengths.now }
    requires known { state < length a.now.accept }
    requires unknown { slice_index_or lengths.now state Unknown ≡ Unknown }
    ensures is { IsLength a.now state result }
    ensures on { result ≡ Unknown → GoesOn a.now lengths.now state }
{
    let (low, high) = next_states(a, state);
    let later = longer(lengths[low as usize], lengths[high as usize]);
    with_own(a.accept_of(state), one_more(later))
}

/// Returns the greater of two lengths if both are known.
fn longer(one: Length, other: Length) -> Length
    ensures { result ≡ longer_of one other }
{
    match one {
        Length::Unknown => Length::Unknown,
        Length::Nothing => other,
        Length::UpTo(most) => match other {
            Length::Unknown => Length::Unknown,
            Length::Nothing => one,
            Length::UpTo(other_most) => Length::UpTo(most.max(other_most)),
            Length::Long => Length::Long,
        },
        Length::Long => match other {
            Length::Unknown => Length::Unknown,
            _ => Length::Long,
        },
    }
}

/// Returns the length with one bit added in front.
fn one_more(length: Length) -> Length
    ensures { result ≡ after_one length }
{
    match length {
        Length::UpTo(most) => {
            if most < LONGEST {
                Length::UpTo(most + 1)
            } else {
                Length::Long
            }
        }
        _ => length,
    }
}

/// Returns the length of a state, given its flag and the length of what follows it.
fn with_own(accepts: bool, length: Length) -> Length
    ensures { result ≡ with_flag accepts length }
{
    match length {
        Length::Nothing => {
            if accepts {
                Length::UpTo(0)
            } else {
                Length::Nothing
            }
        }
        _ => length,
    }
}
