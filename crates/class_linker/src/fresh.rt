//! The classes of a run, each taken from its file.
ghost use Rattle.std.specs.Prelude.{◌≡◌, ◌<◌, [], ◌∷◌, Some, length};
ghost use Rattle.class_record.specs.Facts.{name_at};
ghost use Rattle.class_linker.specs.Fresh.{fresh_view};
ghost use Rattle.class_linker.specs.Rights.{ForFiles, tree_of};

use crate::library::Library;
use crate::loading::load_name;
use crate::readings::Readings;
use class_record::{
    ClassId, Classes, ClassesFault, FieldFact, JavaFault, MethodFact, PoolFact, Source,
};
use class_tree::{ClassTree, Handler};
use jsa_files::Files;
use loaded_classes::LoadedClasses;
use loader_rules::{Loader, Paths};
use std::alloc::Global;
use std::marker::Model;

/// The classes of a run, each taken from its file: from the folders of its loaders, in a store of files.
///
/// The class file of a name is read once, where its loading begins for the first time, and what it was read as is kept for
/// the whole run, unless memory runs out just then. Where the store tells, a load that failed fails again in the same way.
///
/// Contracts see it as the store, the folders, the class files that were read and the classes that are loaded.
#[derive(Drop)]
pub struct Fresh<F: Files> {
    alloc: Global,
    paths: Paths,
    files: F,
    library: Library,
}

impl<F: Files> Model for Fresh<F> {
    ghost use Rattle.class_linker.specs.Fresh.{FreshView};

    ghost Value = { FreshView F };

    ghost use Rattle.class_linker.specs.Fresh.{Stands};

    ghost view = { λ s. record { folders = s.paths; files = s.files; readings = s.library.readings; loaded = s.library.loaded } };

    ghost invariant = { λ s. Stands (F.store s.files) s.paths s.library.readings s.library.loaded };
}

impl<F: Files> Fresh<F> {
    /// No class is loaded, and no file was read.
    pub fn new(alloc: Global, paths: Paths, files: F) -> Fresh<F>
        ensures { result ≡ fresh_view paths files }
    {
        Fresh {
            alloc,
            paths,
            files,
            library: Library {
                readings: Readings::new(alloc),
                loaded: LoadedClasses::new(alloc),
            },
        }
    }

    /// The class file of a loaded class, as a tree.
    pub fn tree(&self, id: ClassId) -> &ClassTree
        requires { id.0 < length self.now.loaded.classes }
        // Where the store tells, it is that of the class file that is found for the name of the class.
        ensures { ForFiles (F.store self.now.files) self.now.folders (λ p. tree_of p (name_at self.now.loaded.classes id.0) ≡ Some result.now) }
    {
        self.library.loaded.tree(id)
    }

    /// The store, as it stands.
    pub fn into_files(self) -> F
        ensures { result ≡ self.files }
    {
        self.files
    }
}

impl<F: Files> Classes for Fresh<F> {
    ghost use Rattle.std.specs.Prelude.{None};
    ghost use Rattle.loaded_classes.specs.Table.{linked_at, word_at};
    ghost use Rattle.class_linker.specs.Kept.{names_read};
    ghost use Rattle.class_linker.specs.Fresh.{world_in, reads_in};

    ghost world = { λ s. world_in (F.store s.files) s.folders };

    ghost classes = { λ s. s.loaded.classes };

    ghost begun = { λ s. names_read s.readings };

    ghost reads = { λ s. reads_in (F.store s.files) };

    ghost linked = { λ s id. linked_at s.loaded.linked id };

    ghost cached = { λ s id k. word_at s.loaded.words id k };

    ghost archive = { λ s id. None };

    ghost read_faults = { λ s. F.read_faults s.files };

    ghost write_faults = { λ s. F.write_faults s.files };

    ghost can_fail = { λ s. F.can_fail s.files };

    fn load(
        &mut self,
        name: &[u8],
        from: Loader,
    ) -> Result<Result<ClassId, JavaFault>, ClassesFault> {
        match load_name(
            self.alloc,
            &self.paths,
            &mut self.files,
            &mut self.library,
            name,
            from,
        )? {
            Some(fault) => Ok(Err(fault)),
            None => match self.library.loaded.find_loaded(name) {
                Some(id) => Ok(Ok(id)),
                None => unreachable!(),
            },
        }
    }

    fn link(&mut self, id: ClassId) -> Result<Option<JavaFault>, ClassesFault> {
        self.library.loaded.mark_linked(id);
        Ok(None)
    }

    fn count(&self) -> u32 {
        self.library.loaded.count()
    }

    fn name(&self, id: ClassId) -> &[u8] {
        self.library.loaded.name(id)
    }

    fn flags(&self, id: ClassId) -> u16 {
        self.library.loaded.flags(id)
    }

    fn loader(&self, id: ClassId) -> Loader {
        self.library.loaded.loader(id)
    }

    fn super_of(&self, id: ClassId) -> Option<ClassId> {
        self.library.loaded.super_of(id)
    }

    fn interface(&self, id: ClassId, k: u32) -> Option<ClassId> {
        self.library.loaded.interface(id, k)
    }

    fn superinterface(&self, id: ClassId, k: u32) -> Option<ClassId> {
        self.library.loaded.superinterface(id, k)
    }

    fn find_loaded(&self, name: &[u8]) -> Option<ClassId> {
        self.library.loaded.find_loaded(name)
    }

    fn field(&self, id: ClassId, k: u32) -> Option<FieldFact<'_>> {
        self.library.loaded.field(id, k)
    }

    fn method(&self, id: ClassId, k: u32) -> Option<MethodFact<'_>> {
        self.library.loaded.method(id, k)
    }

    fn handler(&self, id: ClassId, m: u32, k: u32) -> Option<Handler> {
        self.library.loaded.handler(id, m, k)
    }

    fn pool(&self, id: ClassId, k: u16) -> PoolFact<'_> {
        self.library.loaded.pool(id, k)
    }

    fn sizes(&self, id: ClassId) -> (u32, u32) {
        self.library.loaded.sizes(id)
    }

    fn source(&self, id: ClassId) -> Source {
        self.library.loaded.source(id)
    }

    fn cache(&self, id: ClassId, k: u16) -> u64 {
        self.library.loaded.cache(id, k)
    }

    fn set_cache(&mut self, id: ClassId, k: u16, value: u64) {
        self.library.loaded.set_cache_word(id, k, value);
    }
}
