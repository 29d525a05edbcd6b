//! The classes of a run by the class files that were put in.
ghost use Rattle.std.specs.Prelude.{ℕ, List, Option, length, None, slice_get};
ghost use Rattle.class_record.specs.Files.{Name};
ghost use Rattle.class_record.specs.Facts.{Facts, names_of};
ghost use Rattle.class_record.specs.Calls.{IsClassBefore};
ghost use Rattle.loaded_classes.specs.Held.{IsId, AreIds};

use crate::reading::{field_at, handler_at, method_at, pool_at};
use crate::table::LoadedClasses;
use class_record::{
    ClassId, Classes, ClassesFault, FieldFact, JavaFault, MethodFact, PoolFact, Source,
};
use class_tree::Handler;
use loader_rules::Loader;
use sqlite_items::{Items, at};

// The class with a number, which was loaded before the one whose list or superclass it is from.
fn class_with(id: Option<u32>) -> Option<ClassId>
    ensures { (classes : List Facts) (of : ℕ) (wanted : Option Name) → IsId (names_of classes) of wanted id → IsClassBefore classes of wanted result }
{
    match id {
        Some(id) => Some(ClassId(id)),
        None => None,
    }
}

fn class_at(ids: &Items<u32>, k: u32) -> Option<ClassId>
    ensures { (classes : List Facts) (of : ℕ) (wanted : List Name) → AreIds (names_of classes) of wanted ids.now → IsClassBefore classes of (slice_get wanted k) result }
{
    class_with(at(ids.as_slice(), k as usize).copied())
}

impl Classes for LoadedClasses {
    ghost use Rattle.std.specs.Prelude.{[], None, length};
    ghost use Rattle.class_record.specs.Facts.{names_of};
    ghost use Rattle.loaded_classes.specs.Table.{linked_at, word_at, no_world};

    ghost world = { λ s. no_world };

    ghost classes = { λ s. s.classes };

    ghost begun = { λ s. names_of s.classes };

    ghost reads = { λ s. [] };

    ghost linked = { λ s id. linked_at s.linked id };

    ghost cached = { λ s id k. word_at s.words id k };

    ghost archive = { λ s id. None };

    ghost read_faults = { λ s. 0 };

    ghost write_faults = { λ s. 0 };

    ghost can_fail = { λ s. ⊥ };

    fn load(
        &mut self,
        name: &[u8],
        from: Loader,
    ) -> Result<Result<ClassId, JavaFault>, ClassesFault> {
        Ok(self.seen(name, from))
    }

    fn link(&mut self, id: ClassId) -> Result<Option<JavaFault>, ClassesFault> {
        self.note_link(id);
        Ok(None)
    }

    fn count(&self) -> u32 {
        self.count_held()
    }

    fn name(&self, id: ClassId) -> &[u8] {
        self.class(id).tree.own_name()
    }

    fn flags(&self, id: ClassId) -> u16 {
        self.class(id).tree.flags
    }

    fn loader(&self, id: ClassId) -> Loader {
        self.class(id).loader
    }

    fn super_of(&self, id: ClassId) -> Option<ClassId> {
        class_with(self.class(id).sup)
    }

    fn interface(&self, id: ClassId, k: u32) -> Option<ClassId> {
        class_at(&self.class(id).interfaces, k)
    }

    fn superinterface(&self, id: ClassId, k: u32) -> Option<ClassId> {
        class_at(&self.class(id).superinterfaces, k)
    }

    fn find_loaded(&self, name: &[u8]) -> Option<ClassId> {
        self.named(name)
    }

    fn field(&self, id: ClassId, k: u32) -> Option<FieldFact<'_>> {
        let class = self.class(id);
        let fields = class.tree.fields.as_slice();
        field_at(&class.tree.pool, fields, class.slots.as_slice(), k as usize)
    }

    fn method(&self, id: ClassId, k: u32) -> Option<MethodFact<'_>> {
        let tree = &self.class(id).tree;
        method_at(&tree.pool, tree.methods.as_slice(), k as usize)
    }

    fn handler(&self, id: ClassId, m: u32, k: u32) -> Option<Handler> {
        let methods = self.class(id).tree.methods.as_slice();
        handler_at(methods, m as usize, k as usize)
    }

    fn pool(&self, id: ClassId, k: u16) -> PoolFact<'_> {
        pool_at(&self.class(id).tree.pool, k)
    }

    fn sizes(&self, id: ClassId) -> (u32, u32) {
        let class = self.class(id);
        (class.instance_size, class.static_size)
    }

    fn source(&self, id: ClassId) -> Source {
        Source {
            archive: None,
            folder: self.class(id).folder,
        }
    }

    fn cache(&self, id: ClassId, k: u16) -> u64 {
        self.word(id, k)
    }

    fn set_cache(&mut self, id: ClassId, k: u16, value: u64) {
        self.set_word(id, k, value);
    }
}
