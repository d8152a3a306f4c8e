//! Expresses the rules of chess as formulas over the integers.
//! Each formula is about the squares of the live men of one mask, and contracts see it as a tree (`specs/Trees`). Its meaning is a
//! relation of the game (`specs/Meaning`) on positions, which are given by the stock of men, the mask, the side to move and the
//! squares (`specs/Placed`). `specs/Options` lists the options (move types), `specs/Bearings` the attacks on a king, `specs/Pairs`
//! the pairs of live men, and `specs/Size` bounds the formulas' sizes. `specs/Mean` states their meanings at the positions of one
//! game as one law.
#![tactic(auto)]

mod atoms;
mod bearing_list;
mod build;
mod chains;
mod choices;
mod formulas;
pub mod laws;
mod mask_list;
mod opt;
mod pair_list;
mod paths;
mod point;
mod seats;
mod stock;

pub use bearing_list::bearings;
pub use choices::{is_king, is_side, options, serves_captures, serves_moves};
pub use formulas::{bear_formula, image_formula, pre_formula, safe_formula, twins_formula};
pub use mask_list::masks;
pub use opt::{Bearing, ManPair, Opt, StepSets};
pub use pair_list::pairs;
pub use point::point_formula;
