//! What is always true of mapping.
ghost use Rattle.archive_mapper.specs.Mapping.{MapsAsOne, ArchivesAreMapped};

/// Two answers for the same bytes and the same manifest are one, unless memory ran out. This does nothing: its contract
/// is a fact for callers.
pub fn maps_as_one()
    ensures { MapsAsOne }
{}

/// What is an archive, none of whose folders changed, is mapped, unless memory runs out. This does nothing: its contract
/// is a fact for callers.
pub fn archives_are_mapped()
    ensures { ArchivesAreMapped }
{}
