//! The rows and the flags of some states.
ghost use Rattle.std.specs.Prelude.{◌<◌, All, length, IfOk};
ghost use Rattle.auto_refine.specs.Picked.{ArePicked, AreFlags};

use auto_core::Auto;
use letter_diagram::Node;
use std::alloc::{AllocError, Global};

/// Returns the rows' nodes of the states in `order`.
pub fn picked(alloc: Global, rows: &[Node], order: &[u32]) -> Result<Vec<Node>, AllocError>
    requires { All (λ state. state < length rows.now) order.now }
    ensures { IfOk result (λ picked. ArePicked rows.now order.now picked.items) }
{
    let mut picked = Vec::with_capacity(alloc, order.len())?;
    for state in order {
        picked.push(rows[*state as usize])?;
    }
    Ok(picked)
}

/// Returns the flags of the states in `order`.
pub fn flags(alloc: Global, a: &Auto, order: &[u32]) -> Result<Vec<bool>, AllocError>
    requires { All (λ state. state < length a.now.accept) order.now }
    ensures { IfOk result (λ flags. AreFlags a.now order.now flags.items) }
{
    let mut flags = Vec::with_capacity(alloc, order.len())?;
    for state in order {
        flags.push(a.accept_of(*state))?;
    }
    Ok(flags)
}
