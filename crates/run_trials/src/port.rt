//! The behaviour of the calls of a source or a sink.

ghost use Rattle.std.specs.Prelude.{◌<◌};

use crate::fault::ScriptWhy;
use crate::number::read_number;
use std::alloc::Global;
use std::mem;

/// The behaviour of the calls of a source or a sink.
#[derive(Drop)]
pub struct Port {
    /// How many bytes a call moves at most.
    most: usize,
    /// The numbers of the calls that fail.
    fail: Vec<u32>,

    ghost some: { 0 < most },
}

impl Port {
    /// Creates calls that do not fail and move all that they can.
    pub fn new(alloc: Global) -> Self {
        Port {
            most: usize::MAX,
            fail: Vec::new(alloc),
        }
    }

    /// Returns the greatest number of bytes that one call moves.
    pub fn most(&self) -> usize
        ensures { 0 < result }
    {
        self.most
    }

    /// Returns the numbers of the calls that fail, and leaves none.
    pub fn failing(&mut self, alloc: Global) -> Vec<u32> {
        mem::replace(&mut self.fail, Vec::new(alloc))
    }

    /// Parses `of at most N`: one call moves at most N bytes.
    pub fn set_most(&mut self, rest: &str) -> Result<(), ScriptWhy> {
        let Some(most) = rest.strip_prefix("of at most ") else {
            return Err(ScriptWhy::Unknown);
        };
        let most = read_number::<usize>(most)?;
        if most == 0 {
            return Err(ScriptWhy::Number);
        }
        self.most = most;
        Ok(())
    }

    /// Parses `N fails`: the call of this number, counted from 1, fails.
    pub fn add_failing(&mut self, rest: &str) -> Result<(), ScriptWhy> {
        let Some(call) = rest.strip_suffix(" fails") else {
            return Err(ScriptWhy::Unknown);
        };
        self.fail.push(read_number(call)?)?;
        Ok(())
    }
}
