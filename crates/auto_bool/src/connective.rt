//! How a product combines the flags of its two operands.
ghost use Rattle.std.specs.Prelude.{◌≡◌};
ghost use Rattle.auto_bool.specs.Both.{combined};
ghost use Rattle.auto_bool.specs.Absorbed.{left_deciding, right_deciding};

/// A Boolean connective of two operands: and, or, and not.
#[derive(Clone, Copy)]
pub enum Connective {
    And,
    Or,
    /// The left operand and not the right one.
    AndNot,
}

impl Connective {
    /// Applies the connective to two flags.
    pub fn of(self, left: bool, right: bool) -> bool
        ensures { result ≡ combined self left right }
    {
        match self {
            Connective::And => left && right,
            Connective::Or => left || right,
            Connective::AndNot => left && !right,
        }
    }

    /// Returns the flag of the left operand that decides the result alone.
    pub fn left_deciding(self) -> bool
        ensures { result ≡ left_deciding self }
    {
        match self {
            Connective::And | Connective::AndNot => false,
            Connective::Or => true,
        }
    }

    /// Returns the flag of the right operand that decides the result alone.
    pub fn right_deciding(self) -> bool
        ensures { result ≡ right_deciding self }
    {
        match self {
            Connective::And => false,
            Connective::Or | Connective::AndNot => true,
        }
    }
}
