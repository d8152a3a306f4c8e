//! The cache for the formulas of one union, all over one table of sets. Many of them start with the same conjunction of two sets.
ghost use Rattle.std.specs.Prelude.{◌≡◌, IfOk, IfSome, [], Some, slice_get, length};
ghost use Rattle.auto_core.specs.Automaton.{Automaton};
ghost use Rattle.lin_formula.specs.declared.formula.Formula.{Formula};
ghost use Rattle.lin_formula.specs.TreeOf.{tree_of};
ghost use Rattle.formula_auto.specs.Compiled.{IsSetFor};
ghost use Rattle.formula_auto.specs.MeetState.{IsPair, IsPairAt, MeetsGrow};
ghost use Rattle.formula_auto.specs.PartOf.{IsMembership};

use crate::entry::{MemoEntry, place_of};
use crate::part_auto::PartAuto;
use crate::steps::membership;
use crate::table::SetTable;
use auto_core::Auto;
use limits::Budget;
use lin_formula::{Formula, SetId, copy};
use std::alloc::{AllocError, Global};
use std::marker::Model;
use track_word::Var;

/// A borrowed table of sets, and the automata of conjunctions of two of its sets, for one budget.
#[derive(Drop)]
pub struct MeetTable<'a> {
    sets: &'a SetTable,
    budget: Budget,
    pairs: Vec<MemoEntry>,
}

impl<'a> Model for MeetTable<'a> {
    ghost use Rattle.std.specs.Prelude.{map};
    ghost use Rattle.formula_auto.specs.MeetState.{MeetState, IsMeetTable};
    ghost use Rattle.formula_auto.specs.Codes.{coded_meets};
    ghost use Rattle.formula_auto.specs.EntryOf.{entry_of};

    ghost Value = { MeetState };

    ghost coded = { coded_meets };

    ghost view = { λ l. record { sets = l.sets.now; budget = l.budget; pairs = map entry_of l.pairs.items } };

    ghost invariant = { λ l.
        IsMeetTable (record { sets = l.sets.now; budget = l.budget; pairs = map entry_of l.pairs.items }) };
}

impl<'a> MeetTable<'a> {
    /// Creates an empty cache over the table.
    pub(crate) fn new(alloc: Global, sets: &'a SetTable, budget: Budget) -> MeetTable<'a>
        ensures sets { result.sets ≡ sets.now }
        ensures budget { result.budget ≡ budget }
        ensures pairs { result.pairs ≡ [] }
    {
        MeetTable {
            sets,
            budget,
            pairs: Vec::new(alloc),
        }
    }

    /// Returns the table of sets.
    pub fn sets(&self) -> &'a SetTable
        ensures { result.now ≡ self.now.sets }
    {
        self.sets
    }

    /// Returns the index of a formula's entry, if there is one.
    pub(crate) fn find(&self, f: &Formula) -> Option<usize>
        ensures { IfSome result (IsPairAt self.now (tree_of f.now)) }
    {
        let place = place_of(self.pairs.as_slice(), f);
        place
    }

    /// Returns the automaton at an index.
    pub(crate) fn automaton(&self, place: usize) -> &Auto
        requires { (pair : Formula × Automaton) × (slice_get self.now.pairs place ≡ Some pair) }
        ensures { (f : Formula) × (slice_get self.now.pairs place ≡ Some (f, result.now)) }
    {
        &self.pairs[place].auto
    }

    /// Returns the set with a name.
    pub(crate) fn named(&self, set: SetId) -> &Auto
        requires { (a : Automaton) × (slice_get self.now.sets set.0 ≡ Some a) }
        ensures { slice_get self.now.sets set.0 ≡ Some result.now }
    {
        match self.sets.get(set) {
            Some(auto) => auto,
            None => unreachable!(),
        }
    }

    /// Returns the automaton of a membership: the set itself if its tracks are these variables, and a renamed copy otherwise.
    pub(crate) fn membership(
        &self,
        alloc: Global,
        set: SetId,
        vars: &[Var],
    ) -> Result<PartAuto, AllocError>
        requires { IsSetFor self.now.sets set.0 (length vars.now) }
        ensures { IfOk result (IsMembership self.now set.0 vars.now) }
    {
        let named = self.named(set);
        if named.tracks() == vars {
            return Ok(PartAuto::Named(set));
        }
        let renamed = membership(alloc, named, vars)?;
        Ok(PartAuto::Fresh(renamed))
    }

    /// Appends a formula and its automaton, and returns its index.
    pub(crate) fn remember(
        &mut self,
        alloc: Global,
        f: &Formula,
        auto: Auto,
    ) -> Result<usize, AllocError>
        requires { IsPair self.old.sets self.old.budget (tree_of f.now) auto }
        ensures grows { MeetsGrow self.old self.new }
        ensures there { IfOk result (λ place. (f : Formula) × (slice_get self.new.pairs place ≡ Some (f, auto))) }
    {
        let place = self.pairs.len();
        let entry = MemoEntry {
            formula: copy(alloc, f)?,
            auto,
        };
        self.pairs.push(entry)?;
        Ok(place)
    }
}
