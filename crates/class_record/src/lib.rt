//! The classes of a run: which class a loader finds for a name, what loading and linking it comes to, what is known of a
//! loaded class, and the one interface through which a run takes its classes (JVMS 5.3, 5.4).
#![tactic(auto)]

mod bases;
mod classes;
mod facts;
mod fault;
mod laws;
mod record;
mod start;

pub use bases::{Base, BaseKind, sees};
pub use classes::Classes;
pub use facts::{ClassId, FieldFact, MethodFact, PoolFact, Source};
pub use fault::{ClassesFault, JavaFault, MAX_LOADED};
pub use laws::{
    ancestors_agree, links_by_levels, loads_again, loads_alike, loads_by_levels, orders_grow,
    readings_are_spelled,
};
pub use record::{
    ClassRecord, CodeRecord, FieldRecord, ItableRecord, MethodRecord, Named, PoolName, Tables,
};
pub use start::Start;
