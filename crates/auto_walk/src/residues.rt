//! Residues of the value of a track: a walk whose places are residues.
ghost use Rattle.std.specs.Prelude.{◌≡◌, ◌<◌, ◌^◌, ◌+◌, ◌-◌, ◌*◌, ◌%◌, [], ◌∷◌, List, ℕ, length, slice_get, slice_index, Some, IfOk, OnOk};
ghost use Rattle.letter_diagram.specs.Diagram.{Grows};
ghost use Rattle.letter_diagram.specs.Sets.{NumbersSet};
ghost use Rattle.auto_core.specs.Words.{AcceptsWhere};
ghost use Rattle.auto_core.specs.Integers.{DecidesIntegers};
ghost use Rattle.auto_walk.specs.Walker.{MoreThan};
ghost use Rattle.auto_walk.specs.Rows.{Extends};
ghost use Rattle.auto_walk.specs.Residue.{residue_walker, ResidueHolds, IsBitRow};

use crate::explore::explored;
use crate::grown::Grown;
use crate::walk::Walk;
use auto_core::Auto;
use letter_diagram::{Diagrams, Node, NumberingError, Sets};
use limits::Budget;
use std::alloc::{AllocError, Global};
use track_word::Var;
use track_word::laws::repeating_first_letter_keeps_values;

/// The residues of a track's value; the residue after a bit depends only on the residue before it.
#[derive(Drop)]
struct Residues {
    tracks: Vec<Var>,
    modulus: u32,
    wanted: u32,
    diagrams: Diagrams,
    seen: Sets,
    ghost one_track: { length tracks.items ≡ 1 },
    ghost positive: { 0 < modulus },
}

impl Residues {
    fn new(alloc: Global, var: Var, modulus: u32, wanted: u32) -> Result<Self, AllocError>
        requires { 0 < modulus }
        ensures tracks { IfOk result (λ r. r.tracks.items ≡ var ∷ []) }
        ensures modulus { IfOk result (λ r. r.modulus ≡ modulus) }
        ensures wanted { IfOk result (λ r. r.wanted ≡ wanted) }
        ensures fresh { IfOk result (λ r. r.seen ≡ []) }
    {
        let tracks = vec![in alloc; var]?;
        Ok(Residues {
            tracks,
            modulus,
            wanted,
            diagrams: Diagrams::new(alloc),
            seen: Sets::new(alloc),
        })
    }
}

/// Returns the residue after one more bit.
fn after(residue: u32, bit: u32, modulus: u32) -> u32
    requires bit { bit < 2 }
    requires positive { 0 < modulus }
    ensures { result ≡ (2 * residue + bit) % modulus }
{
    ((2 * u64::from(residue) + u64::from(bit)) % u64::from(modulus)) as u32
}

/// Returns the residue of a numbered place.
fn residue_of(seen: &Sets, number: u32) -> u32
    requires { number < length seen.now }
    ensures { (place : List ℕ) × (slice_get seen.now number ≡ Some place) × (result ≡ slice_index place 0) }
{
    match seen.get(number) {
        Some(place) => place.first().copied().unwrap_or(0),
        None => unreachable!(),
    }
}

/// Returns the number of a residue's place.
fn number_of(seen: &mut Sets, residue: u32) -> Result<u32, AllocError>
    requires { length seen.old < 2 ^ 32 - 1 }
    ensures number { IfOk result (λ number. slice_get seen.new number ≡ Some (residue ∷ [])) }
    ensures seen { OnOk result (NumbersSet seen.old seen.new (residue ∷ [])) }
    ensures kept { Extends seen.old seen.new }
{
    match seen.number(&[residue]) {
        Ok(number) => Ok(number),
        Err(NumberingError::Memory) => Err(AllocError),
        Err(NumberingError::Full) => unreachable!(),
    }
}

/// Returns the node that maps the bit 0 to the number of `low`, and the bit 1 to that of `high`.
fn bit_row(
    diagrams: &mut Diagrams,
    seen: &mut Sets,
    low: u32,
    high: u32,
) -> Result<Node, AllocError>
    requires { length seen.old < 2 ^ 31 }
    ensures row { IfOk result (IsBitRow diagrams.new seen.old seen.new low high) }
    ensures kept { Extends seen.old seen.new }
    ensures grows { Grows diagrams.old diagrams.new }
{
    let low = number_of(seen, low)?;
    let high = number_of(seen, high)?;
    let _ = seen.len(); // for its invariant
    let low = diagrams.leaf(low)?;
    let high = diagrams.leaf(high)?;
    let node = diagrams.node(0, low, high)?;
    Ok(node)
}

impl Walk for Residues {
    ghost use Rattle.auto_walk.specs.Residue.{residue_walker};

    ghost walker = { λ s. residue_walker s.tracks.items s.modulus s.wanted };

    ghost places = { λ s. s.seen };

    ghost shapes = { λ s. s.diagrams };

    fn tracks(&self) -> &[Var] {
        self.tracks.as_slice()
    }

    fn count(&self) -> usize {
        self.seen.len()
    }

    fn first_row(&mut self) -> Result<Node, AllocError> {
        let node = bit_row(&mut self.diagrams, &mut self.seen, 0, self.modulus - 1)?;
        Ok(node)
    }

    fn next_row(&mut self, number: u32) -> Result<Node, AllocError> {
        let residue = residue_of(&self.seen, number);
        let low = after(residue, 0, self.modulus);
        let high = after(residue, 1, self.modulus);
        let node = bit_row(&mut self.diagrams, &mut self.seen, low, high)?;
        Ok(node)
    }

    fn is_final(&self, number: u32) -> bool {
        residue_of(&self.seen, number) == self.wanted
    }

    fn into_diagrams(self) -> Diagrams {
        self.diagrams
    }
}

/// Returns the automaton of "`var` leaves `residue` after division by `modulus`" (as `rem_euclid` does). It has one state for each
/// residue that words reach. Errors: `Over` if they are more than the budget, `Memory` if an allocation fails.
pub fn residue(
    alloc: Global,
    var: Var,
    modulus: u32,
    residue: u32,
    budget: Budget,
) -> Result<Auto, Grown>
    requires modulus { 0 < modulus }
    ensures tracks { IfOk result (λ a. a.tracks ≡ var ∷ []) }
    ensures words { IfOk result (AcceptsWhere (var ∷ []) (ResidueHolds var modulus residue)) }
    ensures integers { IfOk result (λ a. DecidesIntegers a) }
    ensures within { OnOk result (¬ MoreThan (residue_walker (var ∷ []) modulus residue) budget) }
    ensures over { result ≡ Err Grown.Over → MoreThan (residue_walker (var ∷ []) modulus residue) budget }
{
    repeating_first_letter_keeps_values();
    let residues = Residues::new(alloc, var, modulus, residue)?;
    let decided = explored(alloc, residues, budget)?;
    Ok(decided)
}
