//! Laws of images, each the contract of a function without a body.
ghost use Rattle.shift_image.specs.Laws.{ImageSaysPart, MovedSetIsDecided, StepsAreWithin};

use crate::bounds::{
    conjunctions_are_bounded, equations_are_bounded, projections_are_bounded,
    states_bound_residuals,
};
use auto_shift::laws::words_can_be_moved;

/// States that the image says what its part says, of the same variables.
pub fn image_says_what_its_part_says()
    ensures { ImageSaysPart }
{}

/// States that the set with shifted tracks is decided by the automaton of the step.
pub fn moved_sets_are_decided()
    ensures { MovedSetIsDecided }
{
    words_can_be_moved();
}

/// States that no step of an image exceeds the budget if the automata of its parts have few states.
pub fn steps_of_an_image_are_within()
    ensures { StepsAreWithin }
{
    conjunctions_are_bounded();
    equations_are_bounded();
    projections_are_bounded();
    states_bound_residuals();
}
