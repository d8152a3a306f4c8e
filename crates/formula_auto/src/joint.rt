//! The result of combining two parts of a formula.
ghost use Rattle.std.specs.Prelude.{◌≡◌};
ghost use Rattle.formula_auto.specs.Joints.{joint_part};

use crate::part_auto::PartAuto;
use auto_bool::Operand;
use auto_core::Auto;

/// The result of a connective on two parts.
#[derive(Drop)]
pub enum Joint {
    /// One of the two parts.
    Operand(Operand),
    /// A new automaton.
    Made(Auto),
}

impl Joint {
    /// Turns the result into a `PartAuto`, and drops the operands that it does not use.
    pub fn of(self, left: PartAuto, right: PartAuto) -> PartAuto
        ensures { result ≡ joint_part self left right }
    {
        match self {
            Joint::Operand(operand) => operand.of(left, right),
            Joint::Made(auto) => PartAuto::Fresh(auto),
        }
    }
}
