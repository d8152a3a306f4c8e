//! Laws of the plan. Each is the contract of a function that does nothing.
ghost use Rattle.mate_plan.specs.Once.{PlanEndsOnce};

/// States that within a budget the plan of a position has one end or stops at one step, and never both. Two ends have
/// the same tuples at each ply and mask.
pub fn plan_ends_once()
    ensures { PlanEndsOnce }
{}
