//! A formula parsed as an image.
use crate::shift::ValueShift;
use lin_formula::{Formula, SetId};
use track_word::Var;

/// An image: the tuples of a set, with some values changed, for which none of some formulas is true.
#[derive(Drop)]
pub struct Image<'a> {
    pub set: SetId,
    pub vars: &'a [Var],
    pub shifts: Vec<ValueShift>,
    pub clear: Vec<&'a Formula>,
}
