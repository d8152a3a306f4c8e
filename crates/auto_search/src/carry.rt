//! What the bits after a place carry into it.
ghost use Rattle.std.specs.Prelude.{◌≡◌, ◌<◌, ◌≤◌, ◌+◌, ◌*◌, ◌/◌, ◌%◌};

/// The number of carries of a track: 0, 1 and 2.
const CARRIES: u8 = 3;

/// The number of pairs of carries.
pub const SLOTS: u8 = 9;

/// The carries on the two tracks of a ray. Pairs of carries are numbered; a table over them has a slot for each.
#[derive(Clone, Copy)]
pub struct Carry {
    pub x: u8,
    pub y: u8,
    ghost x_small: { x ≤ 2 },
    ghost y_small: { y ≤ 2 },
}

impl Carry {
    /// Returns the carries of a slot.
    pub fn of_slot(slot: u8) -> Carry
        requires { slot < 9 }
        ensures x { result.x ≡ slot / 3 }
        ensures y { result.y ≡ slot % 3 }
    {
        Carry {
            x: slot / CARRIES,
            y: slot % CARRIES,
        }
    }

    /// Returns the slot of these carries.
    pub fn slot(self) -> u8
        ensures slot { result ≡ 3 * self.x + self.y }
        ensures within { result < 9 }
    {
        CARRIES * self.x + self.y
    }
}
