//! The free variables of a formula.
ghost use Rattle.std.specs.Prelude.{◌≡◌, IfOk, OnOk};
ghost use Rattle.track_word.specs.Tracks.{with_var, with_vars, without_var};
ghost use Rattle.track_word.specs.Atom.{term_vars};
ghost use Rattle.lin_formula.specs.Tree as tree;
ghost use Rattle.lin_formula.specs.TreeOf.{tree_of};

use crate::formula::Formula;
use std::alloc::{AllocError, Global};
use track_word::Var;

/// Returns the free variables in ascending order, without repeats. Recurses one call per level. Errors: an allocation failed.
pub fn free_vars(alloc: Global, f: &Formula) -> Result<Vec<Var>, AllocError>
    ensures { IfOk result (λ vars. vars.items ≡ tree.free_vars (tree_of f.now)) }
{
    match f {
        Formula::Lin { terms, .. } => {
            let mut vars = Vec::new(alloc);
            put_terms(terms.as_slice(), &mut vars)?;
            Ok(vars)
        }
        Formula::Value { var, .. } => {
            let mut vars = Vec::new(alloc);
            vars.push(*var)?;
            Ok(vars)
        }
        Formula::Among { vars, .. } => {
            let mut free = Vec::new(alloc);
            put_all(vars.as_slice(), &mut free)?;
            Ok(free)
        }
        Formula::Not(f) => free_vars(alloc, f),
        Formula::And(f, g) | Formula::Or(f, g) => {
            let mut vars = free_vars(alloc, g)?;
            put_all(free_vars(alloc, f)?.as_slice(), &mut vars)?;
            Ok(vars)
        }
        Formula::Ex { var, body } => {
            let mut vars = free_vars(alloc, body)?;
            leave_out(*var, &mut vars);
            Ok(vars)
        }
    }
}

/// Inserts the variables of terms into an ascending list, each unless the list contains it.
fn put_terms(terms: &[(i8, Var)], into: &mut Vec<Var>) -> Result<(), AllocError>
    ensures { OnOk result (into.new.items ≡ with_vars (term_vars terms.now) into.old.items) }
{
    for term in terms.iter().rev().copied() {
        put(term.1, into)?;
    }
    Ok(())
}

/// Inserts variables into an ascending list, each unless the list contains it.
fn put_all(vars: &[Var], into: &mut Vec<Var>) -> Result<(), AllocError>
    ensures { OnOk result (into.new.items ≡ with_vars vars.now into.old.items) }
{
    for var in vars.iter().rev().copied() {
        put(var, into)?;
    }
    Ok(())
}

/// Inserts a variable into an ascending list, unless the list contains it.
fn put(var: Var, into: &mut Vec<Var>) -> Result<(), AllocError>
    ensures { OnOk result (into.new.items ≡ with_var var into.old.items) }
{
    for at in 0..into.len() {
        if var < into[at] {
            into.insert(at, var)?;
            return Ok(());
        }
        if var == into[at] {
            return Ok(());
        }
    }
    into.push(var)?;
    Ok(())
}

/// Removes a variable.
fn leave_out(var: Var, vars: &mut Vec<Var>)
    ensures { vars.new.items ≡ without_var var vars.old.items }
{
    vars.retain(|other| other.0 != var.0);
}
