//! Relations of linear atoms.

/// The relation between the sum and the bound of a linear atom.
#[derive(Clone, Copy, PartialEq, Eq)]
pub enum Rel {
    /// The sum is at most the bound.
    Le,
    /// The sum equals the bound.
    Eq,
}
