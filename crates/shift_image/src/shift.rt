//! A value of a tuple that changes by a constant.
use track_word::Var;

/// A change of one value: the variable before, the variable after, and the difference.
#[derive(Clone, Copy, PartialEq, Eq)]
pub struct ValueShift {
    pub gone: Var,
    pub new: Var,
    pub by: i32,
}
