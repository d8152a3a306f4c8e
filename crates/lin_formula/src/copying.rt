//! Copies of formulas, and their equality. Both recurse into the formula, one call per level.
ghost use Rattle.std.specs.Prelude.{◌≡◌, ◌↔◌, IfOk, IsTrue};
ghost use Rattle.lin_formula.specs.TreeOf.{tree_of};

use crate::formula::Formula;
use crate::lists::{Terms, Vars};
use std::alloc::{AllocError, Global};

/// Copies a formula. Errors: an allocation failed.
pub fn copy(alloc: Global, f: &Formula) -> Result<Formula, AllocError>
    ensures { IfOk result (λ other. tree_of other ≡ tree_of f.now) }
{
    match f {
        Formula::Lin { terms, rel, bound } => Ok(Formula::Lin {
            terms: Terms::new(Vec::from_slice(alloc, terms.as_slice())?),
            rel: *rel,
            bound: *bound,
        }),
        Formula::Value { var, value } => Ok(Formula::Value {
            var: *var,
            value: *value,
        }),
        Formula::Among { set, vars } => Ok(Formula::Among {
            set: *set,
            vars: Vars::new(Vec::from_slice(alloc, vars.as_slice())?),
        }),
        Formula::Not(f) => Ok(Formula::Not(Box::new(alloc, copy(alloc, f)?)?)),
        Formula::And(a, b) => {
            let a = Box::new(alloc, copy(alloc, a)?)?;
            let b = Box::new(alloc, copy(alloc, b)?)?;
            Ok(Formula::And(a, b))
        }
        Formula::Or(a, b) => {
            let a = Box::new(alloc, copy(alloc, a)?)?;
            let b = Box::new(alloc, copy(alloc, b)?)?;
            Ok(Formula::Or(a, b))
        }
        Formula::Ex { var, body } => Ok(Formula::Ex {
            var: *var,
            body: Box::new(alloc, copy(alloc, body)?)?,
        }),
    }
}

/// Returns whether both are the same formula.
pub fn same(a: &Formula, b: &Formula) -> bool
    ensures { IsTrue result ↔ (tree_of a.now ≡ tree_of b.now) }
{
    match (a, b) {
        (
            Formula::Lin { terms, rel, bound },
            Formula::Lin {
                terms: other_terms,
                rel: other_rel,
                bound: other_bound,
            },
        ) => {
            if !terms.same(other_terms) {
                return false;
            }
            if *rel != *other_rel {
                return false;
            }
            *bound == *other_bound
        }
        (
            Formula::Value { var, value },
            Formula::Value {
                var: other_var,
                value: other_value,
            },
        ) => var == other_var && value == other_value,
        (
            Formula::Among { set, vars },
            Formula::Among {
                set: other_set,
                vars: other_vars,
            },
        ) => *set == *other_set && vars.same(other_vars),
        (Formula::Not(f), Formula::Not(g)) => same(f, g),
        (Formula::And(f, g), Formula::And(h, k)) => same(f, h) && same(g, k),
        (Formula::Or(f, g), Formula::Or(h, k)) => same(f, h) && same(g, k),
        (
            Formula::Ex { var, body },
            Formula::Ex {
                var: other_var,
                body: other_body,
            },
        ) => var == other_var && same(body, other_body),
        _ => false,
    }
}
