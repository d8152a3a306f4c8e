//! The number of steps of a formula.
ghost use Rattle.std.specs.Prelude.{◌≡◌, ◌<◌, ◌^◌, length};
ghost use Rattle.lin_formula.specs.Tree.{steps};
ghost use Rattle.lin_formula.specs.TreeOf.{tree_of};

use lin_formula::Formula;

/// Returns the number of its subformulas that are `And`, `Or` or `Ex`. Recurses one call per level.
pub fn step_count(f: &Formula) -> u32
    requires { length (steps (tree_of f.now)) < 2 ^ 31 }
    ensures { result ≡ length (steps (tree_of f.now)) }
{
    match f {
        Formula::Not(g) => step_count(g),
        Formula::And(g, h) | Formula::Or(g, h) => step_count(g) + step_count(h) + 1,
        Formula::Ex { body, .. } => step_count(body) + 1,
        _ => 0,
    }
}
