//! The sets that formulas name.
ghost use Rattle.std.specs.Prelude.{◌≡◌, ◌<◌, ◌^◌, [], ◌∷◌, ◌++◌, length, IfOk, IfErr, OnErr, slice_get, Some, IfSome, IfNone, MatchOption, take, ◌≤◌};

use auto_core::Auto;
use lin_formula::SetId;
use std::alloc::Global;
use std::marker::Model;

/// Automata of sets of tuples. The name of a set is its index.
#[derive(Drop)]
pub struct SetTable {
    sets: Vec<Auto>,
}

impl Model for SetTable {
    ghost use Rattle.std.specs.Prelude.{List};
    ghost use Rattle.auto_core.specs.Automaton.{Automaton};

    ghost Value = { List Automaton };

    ghost view = { λ t. t.sets.items };
}

impl SetTable {
    /// Returns an empty table.
    pub fn new(alloc: Global) -> SetTable
        ensures { result ≡ [] }
    {
        SetTable {
            sets: Vec::new(alloc),
        }
    }

    /// Appends a set, and returns its name. If an allocation fails, returns the set as the error.
    pub fn put(&mut self, a: Auto) -> Result<SetId, Auto>
        requires { length self.old < 2 ^ 32 }
        ensures id { IfOk result (λ id. id.0 ≡ length self.old) }
        ensures ok { IfOk result (λ id. self.new ≡ self.old ++ a ∷ []) }
        ensures found { IfOk result (λ id. slice_get self.new id.0 ≡ Some a) }
        ensures handed_back { IfErr result (λ back. back ≡ a) }
        ensures err { OnErr result (self.new ≡ self.old) }
    {
        let id = SetId(self.sets.len() as u32);
        match self.sets.push(a) {
            Ok(()) => Ok(id),
            Err(failed) => Err(failed.value),
        }
    }

    /// Returns the number of sets.
    pub fn len(&self) -> usize
        ensures { result ≡ length self.now }
    {
        self.sets.len()
    }

    /// Removes the last set. The next set gets its name.
    pub fn pop(&mut self) -> Option<Auto>
        ensures some { IfSome result (λ a. self.old ≡ self.new ++ a ∷ []) }
        ensures none { IfNone result ((self.old ≡ []) × (self.new ≡ [])) }
    {
        self.sets.pop()
    }

    /// Removes the sets from an index on. The next sets get their names.
    pub fn truncate(&mut self, len: usize)
        ensures { self.new ≡ take len self.old }
    {
        self.sets.truncate(len);
    }

    /// Returns the set with a name, if there is one.
    pub fn get(&self, id: SetId) -> Option<&Auto>
        ensures { MatchOption result (length self.now ≤ id.0) (λ a. slice_get self.now id.0 ≡ Some a.now) }
    {
        self.sets.get(id.0 as usize)
    }
}
