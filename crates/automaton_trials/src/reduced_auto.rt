//! Minimal automata.

ghost use Rattle.std.specs.Prelude.{◌≡◌, ◌≤◌, IfOk, IsTrue, length};
ghost use Rattle.track_word.specs.Atom.{IsAtom};
ghost use Rattle.track_word.specs.Tracks.{with_vars};
ghost use Rattle.auto_core.specs.Integers.{DecidesIntegers};
ghost use Rattle.auto_core.specs.Reduced.{IsReduced};

use auto_bool::{Connective, difference, join, meet, not};
use auto_core::Auto;
use auto_reduce::{reduce, sign_stable};
use auto_walk::Grown;
use limits::{Budget, MOST_TRACKS};
use lin_formula::{LinWhy, lin};
use std::alloc::{AllocError, Global};
use std::marker::Model;
use track_word::{Rel, Var};
use trial_rows::RowError;

/// A minimal automaton.
pub struct ReducedAuto {
    auto: Auto,
}

impl Drop for ReducedAuto {
    fn drop(self) {
        let ReducedAuto { auto: _ } = self;
    }
}

impl Model for ReducedAuto {
    ghost use Rattle.auto_core.specs.Automaton.{Automaton};
    ghost use Rattle.auto_core.specs.Reduced.{IsReduced};

    ghost Value = { Automaton };

    ghost view = { λ r. r.auto };

    ghost invariant = { λ r. IsReduced r.auto };
}

impl ReducedAuto {
    /// Returns the automaton.
    pub fn auto(&self) -> &Auto
        ensures is { result.now ≡ self.now }
        ensures reduced { IsReduced result.now }
    {
        &self.auto
    }

    /// Returns a copy.
    pub fn copy(&self) -> Result<ReducedAuto, RowError> {
        match self.auto.copy() {
            Ok(auto) => Ok(ReducedAuto { auto }),
            Err(_) => Err(RowError::Memory),
        }
    }
}

/// The reduced automaton of the same words.
fn reduced(alloc: Global, a: &Auto) -> Result<ReducedAuto, RowError> {
    match reduce(alloc, a) {
        Ok(auto) => Ok(ReducedAuto { auto }),
        Err(_) => Err(RowError::Memory),
    }
}

/// Reduces an automaton, if memory sufficed for it.
pub fn made(alloc: Global, answer: Result<Auto, AllocError>) -> Result<ReducedAuto, RowError> {
    match answer {
        Ok(auto) => reduced(alloc, &auto),
        Err(_) => Err(RowError::Memory),
    }
}

/// Reduces an automaton, if the budget and memory sufficed for it.
pub fn grown(alloc: Global, answer: Result<Auto, Grown>) -> Result<ReducedAuto, RowError> {
    match answer {
        Ok(auto) => reduced(alloc, &auto),
        Err(Grown::Over) => Err(RowError::Over),
        Err(Grown::Memory) => Err(RowError::Memory),
    }
}

/// Returns an error if repeating the first letter may change acceptance: then the automaton does not decide a set of
/// tuples of integers.
pub fn check_stable(alloc: Global, a: &Auto) -> Result<(), RowError>
    ensures { IfOk result (λ _. DecidesIntegers a.now) }
{
    match sign_stable(alloc, a) {
        Ok(true) => Ok(()),
        Ok(false) => Err(RowError::Condition),
        Err(_) => Err(RowError::Memory),
    }
}

/// Returns an error if the parts of a comparison are not allowed.
pub fn check_atom(alloc: Global, terms: &[(i8, Var)], rel: Rel, bound: i32) -> Result<(), RowError>
    ensures { IfOk result (λ _. IsAtom terms.now bound) }
{
    match lin(alloc, terms, rel, bound) {
        Ok(_) => Ok(()),
        Err(LinWhy::Memory) => Err(RowError::Memory),
        Err(_) => Err(RowError::Condition),
    }
}

/// How many tracks there are.
fn track_count(a: &Auto) -> usize
    ensures count { result ≡ length a.now.tracks }
    ensures few { result ≤ MOST_TRACKS }
{
    a.tracks().len()
}

/// Whether both have so few tracks that their product may be made.
fn are_few_together(a: &Auto, b: &Auto) -> bool
    ensures { IsTrue result → length (with_vars a.now.tracks b.now.tracks) ≤ MOST_TRACKS }
{
    let left = track_count(a);
    let right = track_count(b);
    if left + right > MOST_TRACKS as usize {
        return false;
    }
    true
}

/// Returns the automaton of the intersection, the union or the difference.
pub fn joined(
    alloc: Global,
    connective: Connective,
    a: &ReducedAuto,
    b: &ReducedAuto,
    budget: Budget,
) -> Result<ReducedAuto, RowError> {
    let a = a.auto();
    let b = b.auto();
    if !are_few_together(a, b) {
        return Err(RowError::Condition);
    }
    let answer = match connective {
        Connective::And => meet(alloc, a, b, budget),
        Connective::Or => join(alloc, a, b, budget),
        Connective::AndNot => difference(alloc, a, b, budget),
    };
    grown(alloc, answer)
}

/// Returns the automaton of the complement.
pub fn others(alloc: Global, a: &ReducedAuto) -> Result<ReducedAuto, RowError> {
    match not(alloc, a.auto()) {
        Ok(auto) => Ok(ReducedAuto { auto }),
        Err(_) => Err(RowError::Memory),
    }
}
