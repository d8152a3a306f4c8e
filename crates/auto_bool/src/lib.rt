//! Computes intersection, union, difference and complement of automata.
//! Binary operations are products over the tracks of both operands (Rabin and Scott 1959). `specs/Both` has the pairs of states of
//! a product, and `specs/Absorbed` the pairs that are one state if the budget has room for all pairs. `auto_walk` numbers the
//! pairs, and `diagram_product` computes their rows. `specs/Operands` has the products that equal one of the operands.
#![tactic(auto)]

mod both;
mod complement;
mod connective;
mod nothing;
mod one_side;
mod operand;
mod product;
mod sink;

pub use both::both_tracks;
pub use complement::not;
pub use connective::Connective;
pub use nothing::none_of;
pub use one_side::side;
pub use operand::{Operand, fits_with_itself, operand_by};
pub use product::{difference, join, meet, pairs_fit};
pub use sink::deciding_states;
