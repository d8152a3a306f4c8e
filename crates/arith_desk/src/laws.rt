//! Laws of typed formulas and their truth, each the contract of a function without a body.
ghost use Rattle.arith_desk.specs.Laws.{FormulaIsNotRefused, OneExcess, OneMeaning, OneRefusal, OneTruth};

/// States that a line has at most one meaning as a formula.
pub fn line_has_one_meaning()
    ensures { OneMeaning }
{}

/// States that no field of a line that is a formula is refused.
pub fn formula_is_not_refused()
    ensures { FormulaIsNotRefused }
{}

/// States that at most one field of a line is refused.
pub fn line_is_refused_once()
    ensures { OneRefusal }
{}

/// States that the truth of a formula, with its witness, is unique.
pub fn formula_has_one_truth()
    ensures { OneTruth }
{}

/// States that at most one step of a formula is the first that exceeds a budget.
pub fn budget_is_exceeded_once()
    ensures { OneExcess }
{}
