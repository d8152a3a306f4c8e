//! Automata that accept one value of a variable.
ghost use Rattle.std.specs.Prelude.{◌≡◌, ◌≤◌, ◌<◌, ◌+ℤ◌, pos, ◌∷◌, [], length, IfOk};
ghost use Rattle.std.specs.Int.{int_shr};
ghost use Rattle.track_word.specs.Atom.{ValueHolds};
ghost use Rattle.auto_core.specs.Automaton.{IsAutomaton};
ghost use Rattle.auto_core.specs.Integers.{DecidesIntegers};
ghost use Rattle.auto_core.specs.Prefix.{IsPrefixState, AreAllPrefixRows, IsFirstFlag};
ghost use Rattle.auto_core.specs.Words.{AcceptsWhere};

use crate::auto::Auto;
use std::alloc::{AllocError, Global};
use track_word::Var;
use track_word::laws::repeating_first_letter_keeps_values;

/// The number of bits of a value, and the state from which the value can no longer be reached.
const BITS: u32 = 64;

impl Auto {
    /// Returns the automaton of `var = value`. It has 65 states: state k < 64 means that the value read so far is `value` without
    /// its last k bits, and state 64 rejects. Errors: an allocation failed.
    pub fn value(alloc: Global, var: Var, value: i64) -> Result<Auto, AllocError>
        ensures tracks { IfOk result (λ a. a.tracks ≡ var ∷ []) }
        ensures words { IfOk result (AcceptsWhere (var ∷ []) (ValueHolds var value)) }
        ensures few { IfOk result (λ a. length a.accept ≤ 66) }
        ensures integers { IfOk result (λ a. DecidesIntegers a) }
        ensures valid { IfOk result (λ a. IsAutomaton a) }
    {
        repeating_first_letter_keeps_values();
        let tracks = vec![in alloc; var]?;
        let first = vec![in alloc; state_after(value, 0), state_after(value, -1)]?;
        let next = prefix_rows(alloc, value)?;
        let accept = first_flag(alloc)?;
        let decided = Auto::from_rows(alloc, tracks, first, next, accept)?;
        Ok(decided)
    }
}

/// Returns the flags: state 0 alone accepts.
fn first_flag(alloc: Global) -> Result<Vec<bool>, AllocError>
    ensures { IfOk result (λ flags. IsFirstFlag flags.items) }
{
    let mut flags = vec![in alloc; false; 65]?;
    flags[0] = true;
    Ok(flags)
}

/// Returns the rows of the states, one after another.
fn prefix_rows(alloc: Global, value: i64) -> Result<Vec<u32>, AllocError>
    ensures { IfOk result (λ rows. AreAllPrefixRows value rows.items) }
{
    let mut rows = Vec::new(alloc);
    for left in 0..BITS {
        rows.push(state_after_bit(value, left, 0))?;
        rows.push(state_after_bit(value, left, 1))?;
    }
    rows.push(BITS)?;
    rows.push(BITS)?;
    Ok(rows)
}

/// Returns the state after one more bit from the state `left`.
fn state_after_bit(value: i64, left: u32, bit: u32) -> u32
    requires left { left < 64 }
    requires bit { bit < 2 }
    ensures { IsPrefixState value (int_shr value left +ℤ int_shr value left +ℤ pos bit) result }
{
    let read = (value >> left) as i128;
    state_after(value, 2 * read + bit as i128)
}

/// Returns the least k such that the value read so far is `value` without its last k bits, or 64 if there is none.
fn state_after(value: i64, read: i128) -> u32
    ensures { IsPrefixState value read result }
{
    for left in 0..BITS {
        if (value >> left) as i128 == read {
            return left;
        }
    }
    BITS
}
