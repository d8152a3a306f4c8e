//! Stored sets.
ghost use Rattle.std.specs.Prelude.{◌≡◌, ◌<◌, ◌≤◌, ◌++◌, ◌∷◌, length, IfOk, IfSome, OnErr, OnOk, [], slice_get, Some, None, Ok, take};
ghost use Rattle.lin_formula.specs.SetOf.{as_set};
ghost use Rattle.set_plan.specs.Sets.{Grows, kept_of, set_at};

use auto_core::Auto;
use formula_auto::SetTable;
use lin_formula::SetId;
use std::alloc::{AllocError, Global};
use std::marker::Model;

/// Stored sets, under the names that formulas use.
#[derive(Drop)]
pub struct SetStore {
    table: SetTable,
    count: u32,
    ghost counted: { length table ≡ count },
}

impl Model for SetStore {
    ghost use Rattle.std.specs.Prelude.{List};
    ghost use Rattle.auto_core.specs.Automaton.{Automaton};

    ghost Value = { List Automaton };

    ghost view = { λ s. s.table };
}

impl SetStore {
    /// Returns an empty store.
    pub fn new(alloc: Global) -> SetStore
        ensures { result ≡ [] }
    {
        SetStore {
            table: SetTable::new(alloc),
            count: 0,
        }
    }

    /// Returns the table over which formulas are compiled.
    pub fn table(&self) -> &SetTable
        ensures { result.now ≡ self.now }
    {
        &self.table
    }

    /// Returns the set with a name.
    pub fn get(&self, id: SetId) -> &Auto
        requires { id.0 < length self.now }
        ensures { slice_get self.now id.0 ≡ Some result.now }
    {
        match self.table.get(id) {
            Some(a) => a,
            None => unreachable!(),
        }
    }

    /// Stores a set after the others, and returns its name, or none if there is no set. Errors: as those of `put`.
    pub fn keep(&mut self, set: Option<Auto>) -> Result<Option<SetId>, AllocError>
        ensures ok { IfOk result (λ id. set_at self.new id ≡ as_set set) }
        ensures name { IfOk result (λ id. IfSome id (λ k. k.0 ≡ length self.old)) }
        ensures within { IfOk result (λ id. IfSome id (λ k. k.0 < length self.new)) }
        ensures entered { OnOk result (self.new ≡ self.old ++ kept_of set) }
        ensures none { set ≡ None → result ≡ Ok None }
        ensures err { OnErr result (self.new ≡ self.old) }
        ensures grows { Grows self.old self.new }
    {
        match set {
            None => Ok(None),
            Some(a) => Ok(Some(self.put(a)?)),
        }
    }

    /// Returns the number of sets.
    pub fn count(&self) -> u32
        ensures { result ≡ length self.now }
    {
        self.count
    }

    /// Removes all sets but the first `count`.
    pub fn truncate(&mut self, count: u32)
        requires { count ≤ length self.old }
        ensures { self.new ≡ take count self.old }
    {
        self.table.truncate(count as usize);
        self.count = count;
    }

    /// Stores a set after the others, and returns its name. Errors: an allocation failed, or there are no more names.
    pub fn put(&mut self, a: Auto) -> Result<SetId, AllocError>
        ensures ok { IfOk result (λ id. slice_get self.new id.0 ≡ Some a) }
        ensures name { IfOk result (λ id. id.0 ≡ length self.old) }
        ensures within { IfOk result (λ id. id.0 < length self.new) }
        ensures entered { OnOk result (self.new ≡ self.old ++ a ∷ []) }
        ensures err { OnErr result (self.new ≡ self.old) }
        ensures grows { Grows self.old self.new }
    {
        if self.count == u32::MAX {
            return Err(AllocError);
        }
        match self.table.put(a) {
            Ok(id) => {
                self.count += 1;
                Ok(id)
            }
            Err(_) => Err(AllocError),
        }
    }
}
