//! Products that equal one of the operands, and need not be computed.
ghost use Rattle.std.specs.Prelude.{◌≡◌, ◌≤◌, ◌↔◌, length, IsTrue, IsSome, IfSome};
ghost use Rattle.auto_bool.specs.Sides.{AreAmong};
ghost use Rattle.auto_bool.specs.Operands.{operand_of, IsConstant, Yields, IsAtHand, IsOperand, IsProductWithin, IsNothingLeft};

use crate::connective::Connective;
use crate::product::pairs_fit;
use auto_core::Auto;
use limits::Budget;
use track_word::{Var, place_of};

/// One of the two operands of a product.
#[derive(Clone, Copy, PartialEq, Eq)]
pub enum Operand {
    Left,
    Right,
}

impl Operand {
    /// Returns the value of the operand.
    pub fn of<T: Drop>(self, left: T, right: T) -> T
        ensures { result ≡ operand_of self left right }
    {
        match self {
            Operand::Left => left,
            Operand::Right => right,
        }
    }
}

/// Returns the operand, if any, that equals the bounded product of both by this connective.
/// That is so if one of the two has one state and accepts all words or none, so that the product accepts the words of the operand;
/// if the operand has the tracks of both; and if the budget has room for all pairs of states. Costs a comparison of the tracks.
pub fn operand_by(a: &Auto, b: &Auto, connective: Connective, budget: Budget) -> Option<Operand>
    ensures is { IfSome result (IsOperand a.now b.now connective budget) }
    ensures found { (operand : Operand) → IsAtHand a.now b.now connective budget operand → IsSome result }
{
    if !pairs_fit(a, b, budget) {
        return None;
    }
    if yields_left(a, b, connective) && are_among(a.tracks(), b.tracks()) {
        return Some(Operand::Left);
    }
    if yields_right(a, b, connective) && are_among(b.tracks(), a.tracks()) {
        return Some(Operand::Right);
    }
    None
}

/// Returns whether the connective accepts the words of the left automaton.
fn yields_left(a: &Auto, b: &Auto, connective: Connective) -> bool
    ensures { IsTrue result ↔ Yields connective Operand.Left a.now b.now }
{
    match connective {
        Connective::And => is_constant(a, false) || is_constant(b, true),
        Connective::Or => is_constant(a, true) || is_constant(b, false),
        Connective::AndNot => is_constant(a, false) || is_constant(b, false),
    }
}

/// Returns whether the connective accepts the words of the right automaton.
fn yields_right(a: &Auto, b: &Auto, connective: Connective) -> bool
    ensures { IsTrue result ↔ Yields connective Operand.Right a.now b.now }
{
    match connective {
        Connective::And => is_constant(b, false) || is_constant(a, true),
        Connective::Or => is_constant(b, true) || is_constant(a, false),
        Connective::AndNot => false,
    }
}

/// Returns whether the automaton has one state with this flag, so that all words are accepted, or none.
fn is_constant(a: &Auto, flag: bool) -> bool
    ensures { IsTrue result ↔ IsConstant a.now flag }
{
    a.states() == 1 && a.accept_of(0) == flag
}

fn are_among(all: &[Var], some: &[Var]) -> bool
    ensures { IsTrue result ↔ AreAmong all.now some.now }
{
    for track in some {
        if place_of(all, *track) >= all.len() {
            return false;
        }
    }
    true
}

/// Returns whether the budget has room for the bounded products of an automaton with itself.
/// `And` and `Or` of it with itself are the automaton, and `AndNot` is the automaton that accepts no word. A word reaches the same
/// state twice, so there are at most as many pairs as states.
pub fn fits_with_itself(a: &Auto, budget: Budget) -> bool
    ensures room { IsTrue result ↔ (length a.now.accept ≤ budget) }
    ensures both { IsTrue result → IsProductWithin a.now a.now Connective.And budget a.now }
    ensures either { IsTrue result → IsProductWithin a.now a.now Connective.Or budget a.now }
    ensures neither { IsTrue result → IsNothingLeft a.now budget }
{
    a.states() <= budget.states()
}
