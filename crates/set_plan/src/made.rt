//! Sets that have been computed.
use auto_core::Auto;

/// A set, and the number of the next step of its part.
#[derive(Drop)]
pub struct Made {
    /// None if it takes no step to see that the set is empty.
    pub set: Option<Auto>,
    pub at: u32,
}
