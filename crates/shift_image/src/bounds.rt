//! Laws of formulas that say what a formula of fewer variables says and that the other variables solve equations, each the contract
//! of a function without a body.
ghost use Rattle.shift_image.specs.Factored.{AndBound, EquationBound, ExBound};
ghost use Rattle.shift_image.specs.States.{StatesBound};

/// States that a conjunction with a formula needs at most a constant times as many states as that of the part with it.
pub fn conjunctions_are_bounded()
    ensures { AndBound }
{}

/// States that a conjunction with equations needs at most a constant times as many states as the part.
pub fn equations_are_bounded()
    ensures { EquationBound }
{}

/// States that after the projection of a variable that an equation determines, a formula needs at most a constant times as many
/// states as the part.
pub fn projections_are_bounded()
    ensures { ExBound }
{}

/// States that a formula that an automaton decides needs at most as many states as the automaton has.
pub fn states_bound_residuals()
    ensures { StatesBound }
{}
