//! Laws of formulas, each the contract of a function without a body.
ghost use Rattle.lin_formula.specs.Free.{FreeVarsAreFree, FreeVarsAscend, MeaningRestsOnFreeVars};

/// States that the list of free variables contains a variable if and only if it is free in the formula.
pub fn free_vars_are_those_that_are_free()
    ensures { FreeVarsAreFree }
{}

/// States that the list of free variables is ascending, without repeats.
pub fn free_vars_ascend()
    ensures { FreeVarsAscend }
{}

/// States that the truth of a formula depends on the values of its free variables only.
pub fn meaning_rests_on_free_vars()
    ensures { MeaningRestsOnFreeVars }
{}
