//! Laws of partitions.
ghost use Rattle.auto_refine.specs.Coarsest.{CoarsestIsCoarser};

/// States that two states in one class of any partition that respects flags and rows are in one class of the coarsest.
pub fn coarsest_is_coarser()
    ensures { CoarsestIsCoarser }
{}
