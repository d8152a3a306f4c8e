//! The cache of short formulas and their automata, found by hashes. It is lossy.
ghost use Rattle.std.specs.Prelude.{◌≡◌, IfSome, OnOk};
ghost use Rattle.limits.specs.Budget.{IsBudget};
ghost use Rattle.lin_formula.specs.TreeOf.{tree_of};
ghost use Rattle.formula_auto.specs.Short.{IsShort};

use crate::hash::hash_of;
use auto_core::Auto;
use limits::Budget;
use lin_formula::{Formula, copy, same};
use std::alloc::{AllocError, Global};
use std::collections::HashMap;
use std::marker::Model;
use std::rc::Rc;

/// The maximum number of entries. If one more is added, the cache is cleared first.
const MOST_ENTRIES: usize = 65_536;

/// A formula and its shared automaton.
#[derive(Drop)]
pub struct ShortEntry {
    pub formula: Formula,
    pub auto: Rc<Auto>,
}

/// Short formulas with their automata, for one budget, keyed by hash. Of two formulas with one hash the later one is stored.
pub struct ShortTable {
    budget: Budget,
    entries: HashMap<u64, ShortEntry>,
}

impl Drop for ShortTable {
    /// Drops the cache. Written by hand, so that a function that drops a cache has a call here.
    fn drop(self) {
        let ShortTable {
            budget: _,
            entries: _,
        } = self;
    }
}

impl Model for ShortTable {
    ghost use Rattle.std.specs.Prelude.{ℕ};
    ghost use Rattle.formula_auto.specs.ShortTable.{AreShort};

    ghost Value = { ℕ };

    ghost view = { λ t. t.budget };

    ghost invariant = { λ t. AreShort t.budget t.entries };
}

impl ShortTable {
    /// Returns an empty cache.
    pub fn new(alloc: Global, budget: Budget) -> ShortTable
        ensures { result ≡ budget }
    {
        ShortTable {
            budget,
            entries: HashMap::new(alloc),
        }
    }

    /// Returns the budget of a step.
    pub fn budget(&self) -> Budget
        ensures { result ≡ self.now }
    {
        self.budget
    }

    /// Returns the automaton of a formula, if it is stored.
    pub fn find(&self, f: &Formula) -> Option<Rc<Auto>>
        ensures { IfSome result (λ auto. IsShort self.now (tree_of f.now) auto.value) }
    {
        let entry = self.entries.get(&hash_of(f))?;
        if !same(&entry.formula, f) {
            return None;
        }
        entry.auto.clone().ok()
    }

    /// Stores a formula and its automaton. Errors: an allocation failed.
    pub fn put(&mut self, alloc: Global, f: &Formula, auto: Rc<Auto>) -> Result<(), AllocError>
        requires { IsShort self.old (tree_of f.now) auto.value }
        ensures { self.new ≡ self.old }
    {
        self.make_room();
        let entry = ShortEntry {
            formula: copy(alloc, f)?,
            auto,
        };
        self.entries.insert(hash_of(f), entry)?;
        Ok(())
    }

    fn make_room(&mut self)
        ensures { self.new ≡ self.old }
    {
        if self.entries.len() >= MOST_ENTRIES {
            self.entries.clear();
        }
    }
}
