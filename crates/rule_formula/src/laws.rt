//! Laws of the options, each the contract of a function without a body.

ghost use Rattle.rule_formula.specs.Laws.{BearIsOverTracks, ImageIsOverTracks, PreIsOverTracks, SafeIsOverTracks, StepsAreByOptions};
ghost use Rattle.rule_formula.specs.Mean.{FormulasMeanTheRules};

/// States that in a sound position the steps of the side to move are those by its options.
pub fn steps_are_by_options()
    ensures { StepsAreByOptions }
{}

/// States that the free variables of a formula are those of the live men: after the step in an image, and before it in the others.
pub fn formulas_are_over_the_live_men()
    ensures image { ImageIsOverTracks }
    ensures pre { PreIsOverTracks }
    ensures bear { BearIsOverTracks }
    ensures safe { SafeIsOverTracks }
{}

/// States what the formulas mean, with the masks, the options and the attacks, at the positions of one game.
pub fn formulas_mean_the_rules()
    ensures { FormulasMeanTheRules }
{}
