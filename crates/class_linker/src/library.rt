//! All that loading keeps.
use crate::readings::Readings;
use loaded_classes::LoadedClasses;

/// The class files that were read, and the classes that are loaded.
#[derive(Drop)]
pub(crate) struct Library {
    pub(crate) readings: Readings,
    pub(crate) loaded: LoadedClasses,
}
