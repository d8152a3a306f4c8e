//! Steps whose results are known without a product.
ghost use Rattle.std.specs.Prelude.{◌≡◌};
ghost use Rattle.formula_auto.specs.Shortcuts.{with_itself};

use auto_bool::{Connective, Operand};

/// The result of a connective on two parts that is known without a product.
#[derive(Clone, Copy, PartialEq, Eq)]
pub enum Shortcut {
    /// One of the two parts.
    Operand(Operand),
    /// The empty set: a part without itself.
    Nothing,
}

impl Shortcut {
    /// Returns the result of the connective on a part and itself. The budget has room for its states.
    pub fn with_itself(connective: Connective) -> Shortcut
        ensures { result ≡ with_itself connective }
    {
        match connective {
            Connective::And | Connective::Or => Shortcut::Operand(Operand::Left),
            Connective::AndNot => Shortcut::Nothing,
        }
    }
}
