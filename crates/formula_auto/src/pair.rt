//! Two formulas and a connective.
ghost use Rattle.std.specs.Prelude.{◌≡◌};

use auto_bool::Connective;
use lin_formula::Formula;

/// Two formulas to be combined by a connective.
#[derive(Clone, Copy)]
pub struct FormulaPair<'a> {
    pub connective: Connective,
    pub left: &'a Formula,
    pub right: &'a Formula,
}

impl<'a> FormulaPair<'a> {
    /// Creates the pair of two formulas and a connective.
    pub fn new(connective: Connective, left: &'a Formula, right: &'a Formula) -> FormulaPair<'a>
        ensures connective { result.connective ≡ connective }
        ensures left { result.left.now ≡ left.now }
        ensures right { result.right.now ≡ right.now }
    {
        FormulaPair {
            connective,
            left,
            right,
        }
    }
}
