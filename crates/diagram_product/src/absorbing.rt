//! Values of two maps that make the other map's value irrelevant.
ghost use Rattle.std.specs.Prelude.{◌≡◌, None};
ghost use Rattle.diagram_product.specs.Absorbed.{absorbs, stand_in, absorbed};

/// For each of two maps, the value, if any, at which the other map's value is irrelevant (the absorbing value). All pairs with an
/// absorbing value are represented by one pair.
#[derive(Clone, Copy)]
pub struct Absorbing {
    pub left: Option<u32>,
    pub right: Option<u32>,
}

impl Absorbing {
    /// Returns no absorbing values: both values of each pair matter.
    pub fn nothing() -> Self
        ensures left { result.left ≡ None }
        ensures right { result.right ≡ None }
    {
        Absorbing {
            left: None,
            right: None,
        }
    }

    /// Returns the pair that represents a pair.
    #[tactic(auto, unfolding(crate::specs::Absorbed::absorbed))]
    pub fn of(self, left: u32, right: u32) -> (u32, u32)
        ensures { result ≡ absorbed self left right }
    {
        if absorbs(self.left, left) {
            self.stand_in()
        } else if absorbs(self.right, right) {
            self.stand_in()
        } else {
            (left, right)
        }
    }

    /// Returns the pair that represents all pairs with an absorbing value.
    pub(crate) fn stand_in(self) -> (u32, u32)
        ensures { result ≡ stand_in self.left self.right }
    {
        match (self.left, self.right) {
            (Some(left), _) => (left, 0),
            (None, Some(right)) => (0, right),
            (None, None) => (0, 0),
        }
    }
}

/// Returns whether a value is the absorbing one.
pub(crate) fn absorbs(absorbing: Option<u32>, value: u32) -> bool
    ensures { result ≡ absorbs absorbing value }
{
    match absorbing {
        Some(absorbing) => value == absorbing,
        None => false,
    }
}
