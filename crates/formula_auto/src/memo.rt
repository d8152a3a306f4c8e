//! The cache of automata of set-free formulas, kept from one compilation to the next.
ghost use Rattle.std.specs.Prelude.{◌≡◌, [], ◌∷◌, length, MatchOption, IfOk, IfSome, IsSome, OnOk, OnErr};
ghost use Rattle.auto_core.specs.Automaton.{Automaton};
ghost use Rattle.auto_core.specs.Reduced.{IsReduced};
ghost use Rattle.lin_formula.specs.TreeOf.{tree_of};
ghost use Rattle.formula_auto.specs.MemoState.{IsMemo, IsMemoAfter, IsEntry, IsEntryAt, IsKnown, counted};
ghost use Rattle.formula_auto.specs.MeetState.{MeetState};
ghost use Rattle.formula_auto.specs.PartOf.{IsPart};
ghost use Rattle.formula_auto.specs.Short.{IsShort, IsShortPart};
ghost use Rattle.formula_auto.specs.Shortcuts.{IsShortcutOf, IsSeen};
ghost use Rattle.formula_auto.specs.Nodes.{AcceptSame, IsNoLarger};

use crate::entry::{MemoEntry, place_of};
use crate::meet_table::MeetTable;
use crate::part_auto::{PartAuto, same_place};
use crate::short_table::ShortTable;
use crate::shortcut::Shortcut;
use crate::steps::reduced;
use crate::table::SetTable;
use auto_bool::{Connective, fits_with_itself, operand_by};
use auto_core::Auto;
use limits::Budget;
use lin_formula::{Formula, copy};
use std::alloc::{AllocError, Global};
use std::marker::Model;
use std::rc::Rc;

/// A cache of set-free formulas with at least one step, and their automata, for one budget. Searched linearly, in the order of
/// insertion.
#[derive(Drop)]
pub struct Memo {
    shorts: ShortTable,
    entries: Vec<MemoEntry>,
    found: u64,
}

impl Model for Memo {
    ghost use Rattle.std.specs.Prelude.{map};
    ghost use Rattle.formula_auto.specs.MemoState.{MemoState, IsMemo};
    ghost use Rattle.formula_auto.specs.Codes.{coded_state};
    ghost use Rattle.formula_auto.specs.EntryOf.{entry_of};

    ghost Value = { MemoState };

    ghost coded = { coded_state };

    ghost view = { λ m. record { budget = m.shorts; entries = map entry_of m.entries.items; found = m.found } };

    ghost invariant = { λ m.
        IsMemo (record { budget = m.shorts; entries = map entry_of m.entries.items; found = m.found }) };
}

impl Memo {
    /// Returns an empty cache. Each step of a formula that it compiles has this budget.
    pub fn new(alloc: Global, budget: Budget) -> Memo
        ensures budget { result.budget ≡ budget }
        ensures entries { result.entries ≡ [] }
        ensures found { result.found ≡ 0 }
    {
        Memo {
            shorts: ShortTable::new(alloc, budget),
            entries: Vec::new(alloc),
            found: 0,
        }
    }

    /// Returns the number of entries.
    pub fn kept(&self) -> u32
        ensures count { result ≡ length self.now.entries }
        ensures valid { IsMemo self.now }
    {
        self.entries.len() as u32
    }

    /// Returns the number of cache hits, limited to the greatest `u64`.
    pub fn found(&self) -> u64
        ensures { result ≡ self.now.found }
    {
        self.found
    }

    /// Returns the budget of a step.
    pub fn budget(&self) -> Budget
        ensures is { result ≡ self.now.budget }
        ensures valid { IsMemo self.now }
    {
        self.shorts.budget()
    }

    /// Returns an empty cache of conjunctions over a table of sets, for formulas that are compiled over it.
    pub fn meets<'a>(&self, alloc: Global, sets: &'a SetTable) -> MeetTable<'a>
        ensures sets { result.sets ≡ sets.now }
        ensures budget { result.budget ≡ self.now.budget }
    {
        MeetTable::new(alloc, sets, self.budget())
    }

    /// Returns the index of a formula's entry, if there is one.
    pub(crate) fn find(&self, f: &Formula) -> Option<usize>
        ensures { MatchOption result (¬ IsKnown self.now (tree_of f.now)) (IsEntryAt self.now (tree_of f.now)) }
    {
        let place = place_of(self.entries.as_slice(), f);
        place
    }

    /// Returns the automaton of a part.
    pub(crate) fn automaton<'a>(&'a self, meets: &'a MeetTable, part: &'a PartAuto) -> &'a Auto
        requires { (a : Automaton) × IsPart self.now meets.now part.now a }
        ensures { IsPart self.now meets.now part.now result.now }
    {
        match part {
            PartAuto::Fresh(auto) => auto,
            PartAuto::Kept(place) => &self.entries[*place].auto,
            PartAuto::Paired(place) => meets.automaton(*place),
            PartAuto::Named(set) => meets.named(*set),
            PartAuto::Shared(auto) => auto.as_ref(),
        }
    }

    /// Returns the automata of two parts.
    pub(crate) fn automata<'a>(
        &'a self,
        meets: &'a MeetTable,
        left: &'a PartAuto,
        right: &'a PartAuto,
    ) -> (&'a Auto, &'a Auto)
        requires left { (a : Automaton) × IsPart self.now meets.now left.now a }
        requires right { (a : Automaton) × IsPart self.now meets.now right.now a }
        ensures left { IsPart self.now meets.now left.now result.0.now }
        ensures right { IsPart self.now meets.now right.now result.1.now }
    {
        (self.automaton(meets, left), self.automaton(meets, right))
    }

    /// Returns the result of a connective on two parts if it is known without a product and the budget has room: both have the same
    /// automaton, or one of them accepts all words or none.
    pub(crate) fn shortcut(
        &self,
        meets: &MeetTable,
        connective: Connective,
        left: &PartAuto,
        right: &PartAuto,
    ) -> Option<Shortcut>
        requires left { (a : Automaton) × IsPart self.now meets.now left.now a }
        requires right { (a : Automaton) × IsPart self.now meets.now right.now a }
        ensures is { IfSome result (IsShortcutOf connective self.now meets.now left.now right.now) }
        ensures found { IsSeen connective self.now meets.now left.now right.now → IsSome result }
    {
        let (a, b) = self.automata(meets, left, right);
        let most = self.budget();
        if same_place(left, right) && fits_with_itself(a, most) {
            return Some(Shortcut::with_itself(connective));
        }
        Some(Shortcut::Operand(operand_by(a, b, connective, most)?))
    }

    /// Returns the automaton of a part, as an owned value.
    pub(crate) fn given(&self, meets: &MeetTable, part: PartAuto) -> Result<Auto, AllocError>
        requires { (a : Automaton) × IsPart self.now meets.now part a }
        ensures { IfOk result (IsPart self.now meets.now part) }
    {
        match part {
            PartAuto::Fresh(auto) => Ok(auto),
            PartAuto::Kept(place) => self.entries[place].auto.copy(),
            PartAuto::Paired(place) => meets.automaton(place).copy(),
            PartAuto::Named(set) => meets.named(set).copy(),
            PartAuto::Shared(auto) => auto.as_ref().copy(),
        }
    }

    /// Returns the minimal automaton of a part, as an owned value. That of an entry is minimal already.
    pub(crate) fn taken(
        &self,
        alloc: Global,
        meets: &MeetTable,
        part: PartAuto,
    ) -> Result<Auto, AllocError>
        requires { (a : Automaton) × IsPart self.now meets.now part a }
        ensures reduced { IfOk result IsReduced }
        ensures same { IfOk result (λ taken. (a : Automaton) → IsPart self.now meets.now part a → AcceptSame a taken) }
        ensures fewer { IfOk result (λ taken. (a : Automaton) → IsPart self.now meets.now part a → IsNoLarger taken a) }
    {
        match part {
            PartAuto::Fresh(auto) => reduced(alloc, &auto),
            PartAuto::Kept(place) => self.entries[place].auto.copy(),
            PartAuto::Paired(place) => reduced(alloc, meets.automaton(place)),
            PartAuto::Named(set) => reduced(alloc, meets.named(set)),
            PartAuto::Shared(auto) => reduced(alloc, auto.as_ref()),
        }
    }

    /// Counts a cache hit.
    pub(crate) fn count(&mut self)
        ensures { self.new ≡ record self.old { found = counted self.old.found } }
    {
        self.found = self.found.saturating_add(1);
    }

    /// Appends a formula and its automaton, unless there are 2^32 - 1 entries.
    pub(crate) fn enter(
        &mut self,
        alloc: Global,
        f: &Formula,
        auto: Auto,
    ) -> Result<PartAuto, AllocError>
        requires entry { IsEntry self.old.budget (tree_of f.now) auto }
        requires unknown { ¬ IsKnown self.old (tree_of f.now) }
        ensures ok { OnOk result (IsMemoAfter self.old self.new (tree_of f.now ∷ [])) }
        ensures part { IfOk result (λ part. (meets : MeetState) → IsPart self.new meets part auto) }
        ensures err { OnErr result (self.new ≡ self.old) }
    {
        let kept = self.kept();
        if kept == u32::MAX {
            return Ok(PartAuto::Fresh(auto));
        }
        let entry = MemoEntry {
            formula: copy(alloc, f)?,
            auto,
        };
        self.entries.push(entry)?;
        Ok(PartAuto::Kept(kept as usize))
    }

    /// Returns the automaton of a short formula, if the short-formula cache has it.
    pub(crate) fn find_short(&self, f: &Formula) -> Option<Rc<Auto>>
        ensures { IfSome result (λ auto. IsShort self.now.budget (tree_of f.now) auto.value) }
    {
        self.shorts.find(f)
    }

    /// Stores the automaton of a short formula in the short-formula cache, and returns a shared pointer to it.
    pub(crate) fn keep_short(
        &mut self,
        alloc: Global,
        f: &Formula,
        meets: &MeetTable,
        part: PartAuto,
    ) -> Result<PartAuto, AllocError>
        requires { IsShortPart self.old meets.now (tree_of f.now) part }
        ensures same { self.new ≡ self.old }
        ensures kept { IfOk result (IsShortPart self.new meets.now (tree_of f.now)) }
    {
        let auto = self.settled(alloc, f, meets, part)?;
        let shared = Rc::new(alloc, auto)?;
        self.shorts.put(alloc, f, shared.clone()?)?;
        Ok(PartAuto::Shared(shared))
    }

    /// Returns the automaton of a short formula to be stored. That of `Ex` is minimized, since projections leave the most
    /// equivalent states.
    fn settled(
        &self,
        alloc: Global,
        f: &Formula,
        meets: &MeetTable,
        part: PartAuto,
    ) -> Result<Auto, AllocError>
        requires { IsShortPart self.now meets.now (tree_of f.now) part }
        ensures { IfOk result (IsShort self.now.budget (tree_of f.now)) }
    {
        match f {
            Formula::Ex { .. } => self.taken(alloc, meets, part),
            _ => self.given(meets, part),
        }
    }
}
