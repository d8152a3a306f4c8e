//! Partitions of the states into numbered classes.
ghost use Rattle.std.specs.Prelude.{◌<◌, ◌^◌, length, IfOk};
ghost use Rattle.auto_refine.specs.Coarsest.{AreClasses, AreFirstMembers};

use std::alloc::{AllocError, Global};

/// The class of each state, and the number of classes.
#[derive(Drop)]
pub struct Partition {
    pub classes: Vec<u32>,
    pub count: usize,
}

/// Returns the first state of each class, which short words reach. Mostly fewer states are split off from it than stay with it.
/// Errors: an allocation failed.
pub fn members(alloc: Global, partition: &Partition) -> Result<Vec<u32>, AllocError>
    requires partition { AreClasses partition.now }
    requires few { length partition.now.classes.items < 2 ^ 31 }
    ensures { IfOk result (λ members. AreFirstMembers partition.now.classes.items partition.now.count members.items) }
{
    let mut members = vec![in alloc; 0u32; partition.count]?;
    for state in (0..partition.classes.len()).rev() {
        members[partition.classes[state] as usize] = state as u32;
    }
    Ok(members)
}
