ghost use Rattle.std.specs.Prelude.{◌≡◌, ◌↔◌, ◌+◌, ◌-◌, ◌^◌, ◌≤◌, min, IsTrue};
ghost use Rattle.std.specs.Bool.{OnTrue, OnFalse};
ghost use Rattle.desk_base.specs.Calls.{IsListed, no_calls, one_more, one_more_failed};

use std::marker::Model;

/// Counts the calls of an in-memory object, and knows which of them must fail.
#[derive(Drop)]
pub struct CallCount {
    made: u32,
    fail: Vec<u32>,
    faults: u64,
}

impl Model for CallCount {
    ghost use Rattle.std.specs.Prelude.{◌<◌, ◌^◌};
    ghost use Rattle.desk_base.specs.Calls.{Calls};

    ghost Value = { Calls };

    ghost view = { λ c. record { made = c.made; fail = c.fail.items; faults = c.faults } };

    ghost invariant = { λ c. c.faults < 2 ^ 64 };
}

impl CallCount {
    /// Creates a count of 0. The calls whose numbers are in `fail`, counted from 1, will fail.
    pub fn new(fail: Vec<u32>) -> Self
        ensures { result ≡ no_calls fail.items }
    {
        CallCount {
            made: 0,
            fail,
            faults: 0,
        }
    }

    /// Counts a call and returns whether it must fail.
    pub fn fails(&mut self) -> bool
        ensures listed { IsTrue result ↔ IsListed self.old }
        ensures failed { OnTrue result (self.new ≡ one_more_failed self.old) }
        ensures passed { OnFalse result (self.new ≡ one_more self.old) }
        ensures never_falls { self.old.faults ≤ self.new.faults }
    {
        if self.made == u32::MAX {
            return false;
        }
        self.made += 1;
        let fails = self.fail.contains(&self.made);
        if fails {
            self.add_fault();
        }
        fails
    }

    /// Counts a fault.
    pub fn add_fault(&mut self)
        ensures risen { self.new ≡ record self.old { faults = min (self.old.faults + 1) (2 ^ 64 - 1) } }
        ensures never_falls { self.old.faults ≤ self.new.faults }
    {
        self.faults = self.faults.saturating_add(1);
    }
}
