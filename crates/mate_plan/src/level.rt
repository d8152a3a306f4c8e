//! The sets of a level, by name.
ghost use Rattle.std.specs.Prelude.{◌≡◌, [], ◌∷◌, ◌++◌, OnOk, OnErr};
ghost use Rattle.rule_formula.specs.Fits.{masks_of};
ghost use Rattle.mate_plan.specs.Formulas.{name_of};

use crate::bench::PlanContext;
use lin_formula::SetId;
use std::alloc::{AllocError, Global};
use std::marker::Model;

/// The names of the sets of a level, one for each mask of the position, in the order of the masks. `None` means that
/// the set is empty.
#[derive(Drop)]
pub struct LevelNames {
    names: Vec<Option<SetId>>,
}

impl Model for LevelNames {
    ghost use Rattle.std.specs.Prelude.{List, Option};
    ghost use Rattle.lin_formula.specs.declared.formula.SetId.{SetId};

    ghost Value = { List (Option SetId) };

    ghost view = { λ l. l.names.items };
}

impl LevelNames {
    /// Creates a level without masks.
    pub fn new(alloc: Global) -> LevelNames
        ensures { result ≡ [] }
    {
        LevelNames {
            names: Vec::new(alloc),
        }
    }

    /// Adds the name for the next mask. The error is that an allocation failed.
    pub fn push(&mut self, name: Option<SetId>) -> Result<(), AllocError>
        ensures ok { OnOk result (self.new ≡ self.old ++ name ∷ []) }
        ensures err { OnErr result (self.new ≡ self.old) }
    {
        self.names.push(name)?;
        Ok(())
    }

    /// Returns the names, one for each mask.
    pub fn as_slice(&self) -> &[Option<SetId>]
        ensures { result.now ≡ self.now }
    {
        self.names.as_slice()
    }
}

/// Returns the name for a mask in a level.
pub(crate) fn name_in(bench: &PlanContext, level: &LevelNames, mask: u8) -> Option<SetId>
    ensures { result ≡ name_of (masks_of bench.now.position.now) level.now mask }
{
    let mut found = None;
    for (at, name) in bench.masks.iter().zip(level.as_slice()) {
        if *at == mask {
            found = *name;
        }
    }
    found
}
