//! What pools are worth that are built so (JVMS 4.4).
ghost use Rattle.pool_builder.specs.Laws.{NeededGrows, PoolsAreBuilt};

/// A pool grows at its end alone, so that indices stay, and what was needed stands at its index.
pub fn pools_grow()
    ensures { NeededGrows }
{}

/// Each entry of a pool that is built so stands once, with its parts before it.
pub fn pools_are_built()
    ensures { PoolsAreBuilt }
{}
