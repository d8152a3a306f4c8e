//! Laws of the formulas of a path, each the contract of a function without a body.

ghost use Rattle.line_formula.specs.Laws.{BearsMeanCheck, LegalIsByOption, PartsMeanLegal};

/// States that after a path of legal moves the parts of a further move are true if and only if it is legal.
pub fn parts_mean_legal()
    ensures { PartsMeanLegal }
{}

/// States that after a path of legal moves each legal move is one by an option at some distance.
pub fn legal_is_by_option()
    ensures { LegalIsByOption }
{}

/// States that after a path of legal moves the side to move is in check if and only if a man attacks its king.
pub fn bears_mean_check()
    ensures { BearsMeanCheck }
{}
