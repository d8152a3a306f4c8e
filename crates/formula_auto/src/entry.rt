//! Formulas with their automata, in the order of insertion.
ghost use Rattle.std.specs.Prelude.{◌≢◌, All, IfSome, IfNone};
ghost use Rattle.lin_formula.specs.TreeOf.{tree_of};
ghost use Rattle.formula_auto.specs.EntryOf.{IsPlaceOf};

use auto_core::Auto;
use lin_formula::{Formula, same};

/// A formula and its automaton.
#[derive(Drop)]
pub struct MemoEntry {
    pub formula: Formula,
    pub auto: Auto,
}

/// Returns the index of the first entry of a formula. Searches linearly.
pub fn place_of(entries: &[MemoEntry], f: &Formula) -> Option<usize>
    ensures none { IfNone result (All (λ entry. tree_of entry.formula ≢ tree_of f.now) entries.now) }
    ensures some { IfSome result (IsPlaceOf entries.now (tree_of f.now)) }
{
    for (place, entry) in entries.iter().enumerate() {
        if same(&entry.formula, f) {
            return Some(place);
        }
    }
    None
}
