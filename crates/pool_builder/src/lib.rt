//! A constant pool that grows as its entries are needed (JVMS 4.4).
#![tactic(auto)]

mod builder;
mod fault;
mod laws;

pub use builder::PoolBuilder;
pub use fault::PoolFault;
pub use laws::{pools_are_built, pools_grow};
