//! A class as it is held.
use class_tree::ClassTree;
use loader_rules::Loader;
use sqlite_items::Items;

/// A loaded class: its class file, and what is looked up of it once, when it is loaded. The numbers of classes are their
/// places in the load order.
#[derive(Drop)]
pub(crate) struct HeldClass {
    pub(crate) loader: Loader,
    /// The number of the folder that its file is in.
    pub(crate) folder: u32,
    pub(crate) tree: ClassTree,
    /// How many instance fields an object of its superclass has.
    pub(crate) above: u32,
    pub(crate) sup: Option<u32>,
    /// Its direct superinterfaces.
    pub(crate) interfaces: Items<u32>,
    /// Those of its superclass, then each direct one behind its own, and each once.
    pub(crate) superinterfaces: Items<u32>,
    /// The slots of the fields that it declares.
    pub(crate) slots: Items<u32>,
    pub(crate) instance_size: u32,
    pub(crate) static_size: u32,
}
