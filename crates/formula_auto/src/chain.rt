//! Conjunctions of a formula and short formulas, before their automata are built.
ghost use Rattle.std.specs.Prelude.{◌≡◌, IfSome};
ghost use Rattle.lin_formula.specs.TreeOf.{tree_of};
ghost use Rattle.formula_auto.specs.Chains.{IsExtension, and_of, link_done};

use crate::part_auto::{PartAuto, Remembered};
use crate::plain::{is_short, names_set};
use lin_formula::Formula;

/// A short formula and its automaton.
#[derive(Drop)]
pub struct ShortPart {
    pub formula: Formula,
    pub part: PartAuto,
}

/// A conjunction that is not built yet: a part, the short formulas already combined, and the number of the last step.
#[derive(Drop)]
pub struct Pending {
    pub base: PartAuto,
    pub rest: ShortPart,
    pub done: u32,
}

/// A chain of conjunctions so far.
#[derive(Drop)]
pub enum Link {
    /// Its automaton is built.
    Made(Remembered),
    /// It is known to be within the budget, and is not built yet.
    Waiting(Pending),
}

impl Link {
    /// Returns the number of steps taken up to the chain.
    pub fn done(&self) -> u32
        ensures { result ≡ link_done self.now }
    {
        match self {
            Link::Made(made) => made.done,
            Link::Waiting(pending) => pending.done,
        }
    }
}

/// The next formula of a chain, its automaton, and the number of the step that adds it.
#[derive(Drop)]
pub struct Next<'a> {
    pub formula: &'a Formula,
    pub part: PartAuto,
    pub step: u32,
}

/// A conjunction of a formula that names a set and a short one.
#[derive(Clone, Copy)]
pub struct Extension<'a> {
    pub left: &'a Formula,
    pub right: &'a Formula,
}

/// Returns a formula as such a conjunction, if it is one.
pub fn as_extension<'a>(f: &'a Formula) -> Option<Extension<'a>>
    ensures is { IfSome result IsExtension }
    ensures same { IfSome result (λ extension. and_of extension ≡ tree_of f.now) }
{
    match f {
        Formula::And(left, right) => {
            if is_short(right) && names_set(left) {
                return Some(Extension { left, right });
            }
            None
        }
        _ => None,
    }
}
