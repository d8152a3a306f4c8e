//! The context of compiling a part of a formula.

/// Which subformulas of a part are looked up in the cache, and stored there.
#[derive(Clone, Copy)]
pub enum Recall {
    /// Its greatest plain subformulas.
    Plain,
    /// None: there is no cache, or the part belongs to a plain formula that is being built.
    Nothing,
}

/// The position of a part in its formula: the number of steps before it, and which of its subformulas are looked up.
#[derive(Clone, Copy)]
pub struct PartPosition {
    pub before: u32,
    pub recall: Recall,
}
