//! The lists in formulas.
ghost use Rattle.std.specs.Prelude.{◌≡◌, ◌↔◌, IsTrue};

use std::marker::Model;
use track_word::Var;

/// The terms of a linear comparison: pairs of a coefficient and a variable.
#[derive(Drop)]
pub struct Terms {
    items: Vec<(i8, Var)>,
}

impl Model for Terms {
    ghost use Rattle.std.specs.Prelude.{List, ℤ};
    ghost use Rattle.track_word.specs.declared.tracks.Var.{Var};
    ghost use Rattle.lin_formula.specs.Terms.{IsTerms};

    ghost Value = { List (ℤ × Var) };

    ghost view = { λ t. t.items.items };

    ghost invariant = { λ t. IsTerms t.items.items };
}

impl Terms {
    ghost use Rattle.lin_formula.specs.Terms.{IsTerms};

    /// Creates the terms from a list of one to eight terms with different variables and coefficients from -64 to 64 but 0.
    pub fn new(items: Vec<(i8, Var)>) -> Terms
        requires { IsTerms items.items }
        ensures { result ≡ items.items }
    {
        Terms { items }
    }

    /// Returns the terms in order.
    pub fn as_slice(&self) -> &[(i8, Var)]
        ensures items { result.now ≡ self.now }
        ensures made { IsTerms result.now }
    {
        self.items.as_slice()
    }

    /// Returns whether both have the same terms in the same order.
    pub fn same(&self, other: &Terms) -> bool
        ensures { IsTrue result ↔ (self.now ≡ other.now) }
    {
        self.as_slice() == other.as_slice()
    }
}

/// A list of variables.
#[derive(Drop)]
pub struct Vars {
    items: Vec<Var>,
}

impl Model for Vars {
    ghost use Rattle.std.specs.Prelude.{List};
    ghost use Rattle.track_word.specs.declared.tracks.Var.{Var};

    ghost Value = { List Var };

    ghost view = { λ v. v.items.items };
}

impl Vars {
    /// Creates the list of these variables.
    pub fn new(items: Vec<Var>) -> Vars
        ensures { result ≡ items.items }
    {
        Vars { items }
    }

    /// Returns the variables in order.
    pub fn as_slice(&self) -> &[Var]
        ensures { result.now ≡ self.now }
    {
        self.items.as_slice()
    }

    /// Returns whether both have the same variables in the same order.
    pub fn same(&self, other: &Vars) -> bool
        ensures { IsTrue result ↔ (self.now ≡ other.now) }
    {
        self.as_slice() == other.as_slice()
    }
}
