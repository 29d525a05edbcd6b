//! What is so of all loads. A call of one of these does nothing: its contract is a fact for callers.
ghost use Rattle.class_record.specs.Readings.{ReadingsAreSpelled};
ghost use Rattle.class_record.specs.Orders.{LoadsAgain};
ghost use Rattle.class_record.specs.Laws.{LoadsByLevels, LinksByLevels, LoadsAlike, OrdersGrow, AncestorsAgree};

/// The reading of bytes is a class exactly where they spell its tree, and another version exactly where they have one.
pub fn readings_are_spelled()
    ensures { ReadingsAreSpelled }
{}

/// Loading is one level of loading over itself.
pub fn loads_by_levels()
    ensures { LoadsByLevels }
{}

/// Of a class that loads, linking is one level of linking over itself.
pub fn links_by_levels()
    ensures { LinksByLevels }
{}

/// A load ends alike whatever names are under way where the recursion comes to it. The law is on names under way: what was
/// loaded before is no argument of a load at all.
pub fn loads_alike()
    ensures { LoadsAlike }
{}

/// Names that were loaded one after the other (`IsOrder`: each found, small enough to be read, spelled, based on older ones)
/// load again, whatever is under way beside them, and nothing new begins or completes.
pub fn loads_again()
    ensures { LoadsAgain }
{}

/// The load order and the names whose loading has begun only grow, and no name stands in them twice. This is so of any
/// events, and so of those of any load and any link.
pub fn orders_grow()
    ensures { OrdersGrow }
{}

/// The facts of classes that were loaded one after the other, the newest first, say the superclasses and superinterfaces
/// of each as their files do. That each is based on older ones (`AreBuilt`) and is as its file says (`AreRecorded`) are the
/// premises, and both are known of the classes of a run.
pub fn ancestors_agree()
    ensures { AncestorsAgree }
{}
