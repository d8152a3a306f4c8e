//! Automata of linear atoms.
//!
//! After each letter the sum becomes twice its value plus the coefficients of the letter's bits; a sign letter counts negatively
//! (Büchi 1960). A state represents one value of the sum; the first and the last state also represent all values beyond, from which
//! no letter leads back.
ghost use Rattle.std.specs.Prelude.{◌≡◌, ◌↔◌, ◌≤◌, ◌<◌, ◌+◌, ◌≤ℤ◌, ◌<ℤ◌, ℕ, pos, negsuc, length, map, neg_ℤ, ◌+ℤ◌, All, IfOk, IsTrue, unsigned_abs};
ghost use Rattle.std.specs.List.{sum_by};
ghost use Rattle.track_word.specs.Atom.{IsAtom, AtomHolds, Compares, atom_tracks, term_vars};
ghost use Rattle.letter_diagram.specs.Diagram.{Grows};
ghost use Rattle.auto_core.specs.Automaton.{IsAutomaton};
ghost use Rattle.auto_core.specs.Integers.{DecidesIntegers};
ghost use Rattle.auto_core.specs.Sums.{ordered_terms, IsSmall, IsSumRow, AreSumRows, AreFlagsOf, StandsFor, IsSpan, IsSpanOf, AreWeights, SumCompares, reach_of, sizes_of, gain, loss};
ghost use Rattle.auto_core.specs.Words.{AcceptsWhere};

use crate::auto::Auto;
use crate::sums::{ValueRange, row};
use crate::terms::{coefficients, negated, ordered, variables};
use letter_diagram::{Diagrams, Node};
use std::alloc::{AllocError, Global};
use std::collections::HashMap;
use track_word::laws::repeating_first_letter_keeps_values;
use track_word::{Rel, Var};

impl Auto {
    /// Returns the automaton of a linear atom: the sum of coefficient times variable is at most, or equal to, the bound. It has at most
    /// 3 states more than the sum of the absolute values of the coefficients and the bound. Errors: an allocation failed.
    pub fn lin(alloc: Global, terms: &[(i8, Var)], rel: Rel, bound: i32) -> Result<Auto, AllocError>
        requires { IsAtom terms.now bound }
        ensures tracks { IfOk result (λ a. a.tracks ≡ atom_tracks terms.now) }
        ensures words { IfOk result (AcceptsWhere (atom_tracks terms.now) (AtomHolds terms.now rel bound)) }
        ensures few { IfOk result (λ a. length a.accept ≤ sizes_of terms.now + unsigned_abs bound + 3) }
        ensures integers { IfOk result (λ a. DecidesIntegers a) }
        ensures valid { IfOk result (λ a. IsAutomaton a) }
    {
        repeating_first_letter_keeps_values();
        let terms = ordered(alloc, terms)?;
        let tracks = variables(alloc, terms.as_slice())?;
        let weights = coefficients(alloc, terms.as_slice())?;
        let sign_weights = negated(alloc, weights.as_slice())?;
        let decided = sum_automaton(
            alloc,
            tracks,
            weights.as_slice(),
            sign_weights.as_slice(),
            rel,
            bound,
        )?;
        Ok(decided)
    }
}

/// Returns the automaton that compares the weighted sum of a word with the bound.
fn sum_automaton(
    alloc: Global,
    tracks: Vec<Var>,
    weights: &[i32],
    sign_weights: &[i32],
    rel: Rel,
    bound: i32,
) -> Result<Auto, AllocError>
    requires weights { AreWeights tracks.items weights.now sign_weights.now }
    requires low { negsuc 999 ≤ℤ bound }
    requires high { bound ≤ℤ pos 1000 }
    ensures tracks { IfOk result (λ a. a.tracks ≡ tracks.items) }
    ensures words { IfOk result (AcceptsWhere tracks.items (SumCompares weights.now rel bound)) }
    ensures few { IfOk result (λ a. length a.accept ≤ reach_of weights.now + unsigned_abs bound + 3) }
    ensures valid { IfOk result (λ a. IsAutomaton a) }
{
    let span = span_of(weights, bound);
    let mut diagrams = Diagrams::new(alloc);
    let rows = state_rows(alloc, &mut diagrams, weights, span)?;
    let mut memo = HashMap::new(alloc);
    let first = row(&mut diagrams, &mut memo, sign_weights, span, 0, 0)?;
    let accept = flags(alloc, rel, bound, span)?;
    let decided = Auto::from_diagrams(tracks, diagrams, first, rows, accept);
    Ok(decided)
}

/// Returns the values that states represent. Beyond these the sum only moves away from the bound.
fn span_of(weights: &[i32], bound: i32) -> ValueRange
    requires few { length weights.now ≤ 8 }
    requires small { All IsSmall weights.now }
    requires low { negsuc 999 ≤ℤ bound }
    requires high { bound ≤ℤ pos 1000 }
    ensures { IsSpanOf weights.now bound result }
{
    let (most, least) = reach(weights);
    ValueRange {
        low: (bound - 1).min(-most),
        high: (bound + 1).max(least),
    }
}

/// Returns the sum of the positive weights, and the negated sum of the negative ones.
fn reach(weights: &[i32]) -> (i32, i32)
    requires few { length weights.now ≤ 8 }
    requires small { All IsSmall weights.now }
    ensures most { result.0 ≡ pos (sum_by gain weights.now) }
    ensures least { result.1 ≡ pos (sum_by loss weights.now) }
    ensures most_small { sum_by gain weights.now ≤ 512 }
    ensures least_small { sum_by loss weights.now ≤ 512 }
{
    let mut most = 0;
    let mut least = 0;
    for weight in weights {
        most += gain_of(*weight);
        least += loss_of(*weight);
    }
    (most, least)
}

/// Returns the weight if it is positive, and 0 otherwise.
fn gain_of(weight: i32) -> i32
    requires { IsSmall weight }
    ensures { result ≡ pos (gain weight) }
{
    if weight > 0 { weight } else { 0 }
}

/// Returns the negated weight if it is negative, and 0 otherwise.
fn loss_of(weight: i32) -> i32
    requires { IsSmall weight }
    ensures { result ≡ pos (loss weight) }
{
    if weight < 0 { -weight } else { 0 }
}

/// Returns the rows of the states, in order.
fn state_rows(
    alloc: Global,
    diagrams: &mut Diagrams,
    weights: &[i32],
    span: ValueRange,
) -> Result<Vec<Node>, AllocError>
    requires few { length weights.now ≤ 8 }
    requires small { All IsSmall weights.now }
    requires span { IsSpan span }
    ensures rows { IfOk result (λ nodes. AreSumRows diagrams.new weights.now span nodes.items) }
    ensures count { IfOk result (λ nodes. pos (length nodes.items) +ℤ span.low ≡ span.high +ℤ pos 1) }
    ensures grows { Grows diagrams.old diagrams.new }
{
    let mut memo = HashMap::new(alloc);
    let mut nodes = Vec::new(alloc);
    for state in 0..span.states() {
        let sum = span.doubled(state);
        let node = row(diagrams, &mut memo, weights, span, 0, sum)?;
        nodes.push(node)?;
    }
    Ok(nodes)
}

/// Returns for each state whether its value compares with the bound.
fn flags(alloc: Global, rel: Rel, bound: i32, span: ValueRange) -> Result<Vec<bool>, AllocError>
    requires { IsSpan span }
    ensures flags { IfOk result (λ flags. AreFlagsOf rel bound span flags.items) }
    ensures count { IfOk result (λ flags. pos (length flags.items) +ℤ span.low ≡ span.high +ℤ pos 1) }
{
    let mut flags = Vec::new(alloc);
    for state in 0..span.states() {
        flags.push(compares(rel, span.value_of(state), bound))?;
    }
    Ok(flags)
}

/// Returns whether a sum compares with a bound.
fn compares(rel: Rel, sum: i32, bound: i32) -> bool
    ensures { IsTrue result ↔ Compares rel sum bound }
{
    match rel {
        Rel::Le => sum <= bound,
        Rel::Eq => sum == bound,
    }
}
