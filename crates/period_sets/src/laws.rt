//! Laws of periodic sets, each the contract of a function without a body.
ghost use Rattle.period_sets.specs.Laws.{NoErrorBeside, OneDescription, OneError, OneLeastPeriod, OneLeastStart, TellsMembers};

/// States that the least period of a set is unique.
pub fn one_least_period()
    ensures { OneLeastPeriod }
{}

/// States that the least start of the repetition is unique.
pub fn one_least_start()
    ensures { OneLeastStart }
{}

/// States that the description of a set is unique.
pub fn one_description()
    ensures { OneDescription }
{}

/// States that a description determines which positive numbers are in the set.
pub fn description_tells()
    ensures { TellsMembers }
{}

/// States that a set that is described within the budget has no error but `Memory`.
pub fn no_error_beside()
    ensures { NoErrorBeside }
{}

/// States that a set and a budget have at most one error other than `Memory`.
pub fn one_error()
    ensures { OneError }
{}
