//! Laws of the sets of first moves. Each is the contract of a function that does nothing.
ghost use Rattle.first_distances.specs.Laws.{HasFirsts, NoErrorWithin, OneFirstSet, OneRayError};

/// States that the numbers in the set of a ray are the distances of the winner's first moves along it.
pub fn has_firsts()
    ensures { HasFirsts }
{}

/// States that a ray has exactly one set of distances.
pub fn one_first_set()
    ensures { OneFirstSet }
{}

/// States that the only possible error is out of memory if no step of the ray's formula exceeds the budget.
pub fn no_error_within()
    ensures { NoErrorWithin }
{}

/// States that a ray and a budget have at most one error apart from out of memory.
pub fn one_ray_error()
    ensures { OneRayError }
{}
