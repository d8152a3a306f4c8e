//! The worklist: computes rows until each numbered place has one.
ghost use Rattle.std.specs.Prelude.{◌≡◌, ◌<◌, ◌≤◌, ◌^◌, [], length, IfOk, OnOk, vec_len, map};
ghost use Rattle.auto_walk.specs.Walker.{MoreThan, IsWalked};
ghost use Rattle.auto_walk.specs.Rows.{AreNumbered, IsFirstRowIn, IsNextRowIn, Extends, AreRows};
ghost use Rattle.letter_diagram.specs.Diagram.{Grows};

use crate::grown::Grown;
use crate::walk::Walk;
use auto_core::Auto;
use letter_diagram::Node;
use limits::Budget;
use std::alloc::{AllocError, Global};

/// Returns the first row. Errors: `Over` if it numbers more places than the budget.
fn first_row<W: Walk>(walk: &mut W, budget: Budget) -> Result<Node, Grown>
    requires { W.places walk.old ≡ [] }
    ensures walker { W.walker walk.new ≡ W.walker walk.old }
    ensures numbered { OnOk result (AreNumbered (W.walker walk.old) (W.places walk.new)) }
    ensures room { OnOk result (length (W.places walk.new) ≤ budget) }
    ensures row { IfOk result (IsFirstRowIn W.walker W.shapes W.places walk.old walk.new) }
    ensures over { result ≡ Err Grown.Over → MoreThan (W.walker walk.old) budget }
{
    let node = walk.first_row()?;
    if walk.count() > budget.states() as usize {
        return Err(Grown::Over);
    }
    Ok(node)
}

/// Returns the row of a numbered place. Errors: `Over` if it numbers more places than the budget.
fn next_row<W: Walk>(walk: &mut W, number: u32, budget: Budget) -> Result<Node, Grown>
    requires numbered { AreNumbered (W.walker walk.old) (W.places walk.old) }
    requires known { number < length (W.places walk.old) }
    requires room { length (W.places walk.old) ≤ budget }
    ensures walker { W.walker walk.new ≡ W.walker walk.old }
    ensures kept { Extends (W.places walk.old) (W.places walk.new) }
    ensures grows { Grows (W.shapes walk.old) (W.shapes walk.new) }
    ensures numbered { OnOk result (AreNumbered (W.walker walk.old) (W.places walk.new)) }
    ensures room { OnOk result (length (W.places walk.new) ≤ budget) }
    ensures row { IfOk result (IsNextRowIn W.walker W.shapes W.places walk.old walk.new number) }
    ensures over { result ≡ Err Grown.Over → MoreThan (W.walker walk.old) budget }
{
    let node = walk.next_row(number)?;
    if walk.count() > budget.states() as usize {
        return Err(Grown::Over);
    }
    Ok(node)
}

/// Returns the rows of all places that are reachable from the numbered ones.
fn all_rows<W: Walk>(alloc: Global, walk: &mut W, budget: Budget) -> Result<Vec<Node>, Grown>
    requires numbered { AreNumbered (W.walker walk.old) (W.places walk.old) }
    requires room { length (W.places walk.old) ≤ budget }
    ensures walker { W.walker walk.new ≡ W.walker walk.old }
    ensures kept { Extends (W.places walk.old) (W.places walk.new) }
    ensures grows { Grows (W.shapes walk.old) (W.shapes walk.new) }
    ensures numbered { OnOk result (AreNumbered (W.walker walk.old) (W.places walk.new)) }
    ensures room { OnOk result (length (W.places walk.new) ≤ budget) }
    ensures rows { IfOk result (λ all. AreRows (W.walker walk.old) (W.shapes walk.new) (W.places walk.new) all.items) }
    ensures size { IfOk result (λ rows. vec_len rows ≡ length (W.places walk.new)) }
    ensures over { result ≡ Err Grown.Over → MoreThan (W.walker walk.old) budget }
{
    let mut rows = Vec::new(alloc);
    let mut number = 0;
    while (number as usize) < walk.count() {
        let node = next_row(walk, number, budget)?;
        rows.push(node)?;
        number += 1;
    }
    Ok(rows)
}

/// Returns the accept flag of each place.
fn flags<W: Walk>(alloc: Global, walk: &W) -> Result<Vec<bool>, AllocError>
    requires numbered { AreNumbered (W.walker walk.now) (W.places walk.now) }
    requires room { length (W.places walk.now) < 2 ^ 31 }
    ensures { IfOk result (λ flags. flags.items ≡ map ((W.walker walk.now).final) (W.places walk.now)) }
{
    let mut flags = Vec::new(alloc);
    for number in 0..walk.count() as u32 {
        flags.push(walk.is_final(number))?;
    }
    Ok(flags)
}

/// Returns the automaton whose states are the places that words reach, numbered in the order of discovery.
/// Errors: `Over` if they are more than the budget, `Memory` if an allocation fails.
pub fn explored<W: Walk>(alloc: Global, walk: W, budget: Budget) -> Result<Auto, Grown>
    requires fresh { W.places walk ≡ [] }
    ensures ok { IfOk result (IsWalked (W.walker walk)) }
    ensures few { IfOk result (λ m. length m.accept ≤ budget) }
    ensures within { OnOk result (¬ MoreThan (W.walker walk) budget) }
    ensures over { result ≡ Err Grown.Over → MoreThan (W.walker walk) budget }
{
    let mut walk = walk;
    let _ = budget.states(); // for its invariant
    let first = first_row(&mut walk, budget)?;
    let rows = all_rows(alloc, &mut walk, budget)?;
    let accept = flags(alloc, &walk)?;
    let tracks = walk.tracks().to_vec(alloc)?;
    Ok(Auto::from_diagrams(tracks, walk.into_diagrams(), first, rows, accept))
}
