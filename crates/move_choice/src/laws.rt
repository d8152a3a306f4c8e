//! Laws of the definitions. Each is the contract of a function that does nothing.
ghost use Rattle.move_choice.specs.Choice.{PickIsOne};

/// States that for each position, frame and sets there is at most one first move, and not both a first move and none.
pub fn pick_once()
    ensures { PickIsOne }
{}
