//! The classes of a run.
ghost use Rattle.std.specs.Prelude.{◌≡◌, ◌+◌, ◌<◌, ◌≤◌, ◌^◌, ◌++◌, ℕ, Bool, true, false, List, Option, Some, None, length, slice_get, IsErrOf};
ghost use Rattle.std.specs.Option.{option_map, IfSome};
ghost use Rattle.loader_rules.specs.declared.loader.Loader.{Loader};
ghost use Rattle.class_record.specs.declared.fault.TheConstants.{MAX_LOADED};
ghost use Rattle.class_record.specs.Files.{Name};
ghost use Rattle.class_record.specs.Laws.{AreDistinct};
ghost use Rattle.class_record.specs.Loading.{is_among};
ghost use Rattle.class_record.specs.Worlds.{World, AsTold};
ghost use Rattle.class_record.specs.Facts as known;
ghost use Rattle.class_record.specs.Facts.{Facts, names_of, field_shown, method_shown, method_told, pool_shown};
ghost use Rattle.class_record.specs.Ancestors.{newest, superinterfaces_in};
ghost use Rattle.class_record.specs.Built.{AreBuilt};
ghost use Rattle.class_record.specs.Calls.{AnswersLoad, AnswersLink, AreLinked, AreOf, CountsRead, GivesClass, IsClassBefore, IsClassNamed, LinksOne, NamesLimit};

use crate::facts::{ClassId, FieldFact, MethodFact, PoolFact, Source};
use crate::fault::{ClassesFault, JavaFault};
use class_tree::Handler;
use loader_rules::Loader;

/// The classes of a run, wherever they come from: loading and linking them, and what is known of those that are loaded (JVMS
/// 5.3, 5.4).
///
/// Contracts speak of meanings that no code need hold. An implementer says what they are for its type. Where its world tells
/// its files, loading and linking are exactly those of this world, and so is all that is known of the classes: what is proved
/// over this trait holds of whatever holds the classes.
///
/// A `ClassId` that a call takes is one of a loaded class.
pub trait Classes {
    /// Where the classes come from. It never changes.
    ghost world: { Self → World };

    /// What is known of the loaded classes, in load order: the order in which their loading completed. It only grows.
    ghost classes: { Self → List Facts };

    /// The names whose loading has begun, each once, in order.
    ghost begun: { Self → List Name };

    /// The paths of the class files that were read, in order, where the world is told.
    ghost reads: { Self → List (List ℕ) };

    /// Whether the class with this number is linked: a `link` of it was Ok.
    ghost linked: { Self → ℕ → Bool };

    /// The cache word of a class at an index of its constant pool, which is 0 before one is set.
    ghost cached: { Self → ℕ → ℕ → ℕ };

    /// The archive that a loaded class was taken from.
    ghost archive: { Self → ℕ → Option ℕ };

    /// How many reads have failed. It never falls, and may stand still at 2^64 - 1.
    ghost read_faults: { Self → ℕ };

    /// How many writes have failed. No call here writes.
    ghost write_faults: { Self → ℕ };

    /// Whether a call may fail from here on. Where none may, none ever will.
    ghost can_fail: { Self → Type 0 };

    /// Loads the class of this name from the loader `from`, with all that it is based on, unless it is loaded (JVMS 5.3.5).
    /// An array class isn't loaded itself, and its name finds nothing.
    ///
    /// Each class that a class is based on, first its superclass and then its direct superinterfaces in order, is loaded by
    /// the loader that defines it, and tested, before the next one is begun. The first throwable ends the load, and leaves
    /// what has completed loaded:
    ///
    /// - `NoClassDefFoundError` where no file is found, or its class has another name;
    /// - `ClassCircularityError` where a file is found and the loading of its class is under way;
    /// - `UnsupportedClassVersionError` where the version isn't 50.0, 51.0 or 52.0;
    /// - `ClassFormatError` where the file is no class file otherwise;
    /// - `IllegalAccessError` where a class that it is based on is neither public nor of its run-time package;
    /// - `IncompatibleClassChangeError` where its superclass is an interface, or a superinterface is none.
    ///
    /// Loading a class again gives the same, and where no fault came the class file of no name is read twice.
    ///
    /// # Errors
    ///
    /// Whatever comes, what was loaded stays loaded and keeps its facts.
    ///
    /// - `Read` comes only where the count of failed reads rose: it is greater than before, or at 2^64 - 1.
    /// - `Limit` comes where a class file is above `FileSize`, 67,108,864 bytes, or where a class more than `Loaded`, 65,535,
    ///   would be loaded, and names the limit that is passed first; where the world is told, exactly there.
    /// - `Memory` comes where memory ran out.
    fn load(
        &mut self,
        name: &[u8],
        from: Loader,
    ) -> Result<Result<ClassId, JavaFault>, ClassesFault>
        ensures told { AsTold (world self.old) (λ w. AnswersLoad w from name.now
            (record { order = names_of (classes self.old); begun = begun self.old; reads = reads self.old })
            (record { order = names_of (classes self.new); begun = begun self.new; reads = reads self.new }) result) }
        ensures loaded { GivesClass (classes self.new) name.now result }
        ensures grows { (more : List Facts) × (classes self.new ≡ classes self.old ++ more) }
        ensures limit { NamesLimit result }
        ensures cause { CountsRead (read_faults self.old) (read_faults self.new) result }
        ensures failed { IsErrOf result ClassesFault.Read → can_fail self.old }
        ensures stays { can_fail self.new → can_fail self.old }
        ensures writes { write_faults self.new ≡ write_faults self.old }
        ensures world { world self.new ≡ world self.old }
        ensures linked { (id : ℕ) → linked self.new id ≡ linked self.old id }
        ensures words { (id k : ℕ) → cached self.new id k ≡ cached self.old id k }
        ensures sources { (id : ℕ) → id < length (classes self.old) → archive self.new id ≡ archive self.old id };

    /// Links a loaded class (JVMS 5.4): its superclass, then its direct superinterfaces in order, then the class itself. The
    /// first throwable ends it. `None` says that the class is linked now.
    ///
    /// # Errors
    ///
    /// As those of `load`.
    fn link(&mut self, id: ClassId) -> Result<Option<JavaFault>, ClassesFault>
        requires { id.0 < length (classes self.old) }
        ensures told { AsTold (world self.old) (λ w. AnswersLink w (slice_get (names_of (classes self.old)) id.0)
            (record { order = names_of (classes self.old); begun = begun self.old; reads = reads self.old })
            (record { order = names_of (classes self.new); begun = begun self.new; reads = reads self.new }) result) }
        ensures linked { LinksOne (linked self.old) (linked self.new) id.0 result }
        ensures grows { (more : List Facts) × (classes self.new ≡ classes self.old ++ more) }
        ensures limit { NamesLimit result }
        ensures cause { CountsRead (read_faults self.old) (read_faults self.new) result }
        ensures failed { IsErrOf result ClassesFault.Read → can_fail self.old }
        ensures stays { can_fail self.new → can_fail self.old }
        ensures writes { write_faults self.new ≡ write_faults self.old }
        ensures world { world self.new ≡ world self.old }
        ensures words { (id k : ℕ) → cached self.new id k ≡ cached self.old id k }
        ensures sources { (id : ℕ) → id < length (classes self.old) → archive self.new id ≡ archive self.old id };

    /// How many classes are loaded, at most 65,535.
    fn count(&self) -> u32
        ensures count { result ≡ length (classes self.now) }
        ensures few { length (classes self.now) ≤ MAX_LOADED }
        // What a class is based on was loaded before it, its fields have their slots, and its lists are short.
        ensures built { AreBuilt (newest (classes self.now)) }
        // What is known of each class is what the world says of it, and a class that is linked links there too.
        ensures told { AsTold (world self.now) (λ w. AreOf w (classes self.now)) }
        ensures links { AsTold (world self.now) (λ w. AreLinked w (classes self.now) (linked self.now)) }
        // The loading of each class has begun, no name is begun twice, and none but the loaded classes is linked or has a
        // cache word that is set.
        ensures begun { (name : Name) → is_among name (names_of (classes self.now)) ≡ true → is_among name (begun self.now) ≡ true }
        ensures distinct { AreDistinct (begun self.now) }
        ensures unlinked { (id : ℕ) → length (classes self.now) ≤ id → linked self.now id ≡ false }
        ensures unset { (id k : ℕ) → length (classes self.now) ≤ id → cached self.now id k ≡ 0 };

    /// The internal name of a class (JVMS 4.2.1).
    fn name(&self, id: ClassId) -> &[u8]
        requires { id.0 < length (classes self.now) }
        ensures { slice_get (names_of (classes self.now)) id.0 ≡ Some result.now };

    /// The access flags of a class, as written (JVMS 4.1).
    fn flags(&self, id: ClassId) -> u16
        requires { id.0 < length (classes self.now) }
        ensures { option_map (λ f. f.flags) (slice_get (classes self.now) id.0) ≡ Some result };

    /// The loader that defines a class.
    fn loader(&self, id: ClassId) -> Loader
        requires { id.0 < length (classes self.now) }
        ensures { option_map (λ f. f.loader) (slice_get (classes self.now) id.0) ≡ Some result };

    /// The superclass of a class, which java/lang/Object alone doesn't have.
    fn super_of(&self, id: ClassId) -> Option<ClassId>
        requires { id.0 < length (classes self.now) }
        ensures { IsClassBefore (classes self.now) id.0 (known.sup_at (classes self.now) id.0) result };

    /// The direct superinterface of a class with this number, and `None` past the last.
    fn interface(&self, id: ClassId, k: u32) -> Option<ClassId>
        requires { id.0 < length (classes self.now) }
        ensures { IsClassBefore (classes self.now) id.0 (slice_get (known.interfaces_at (classes self.now) id.0) k) result };

    /// The superinterface of a class with this number, direct or not, and `None` past the last. Those of its superclass come
    /// first, an interface comes behind its own superinterfaces, and each comes once.
    fn superinterface(&self, id: ClassId, k: u32) -> Option<ClassId>
        requires { id.0 < length (classes self.now) }
        ensures { IsClassBefore (classes self.now) id.0 (slice_get (superinterfaces_in (newest (classes self.now)) (known.name_at (classes self.now) id.0)) k) result };

    /// The loaded class of a name, whatever loader defines it.
    fn find_loaded(&self, name: &[u8]) -> Option<ClassId>
        ensures { IsClassNamed (classes self.now) name.now result };

    /// The field that a class declares with this number, and `None` past the last.
    fn field(&self, id: ClassId, k: u32) -> Option<FieldFact<'_>>
        requires { id.0 < length (classes self.now) }
        ensures { option_map field_shown result ≡ known.field_at (classes self.now) id.0 k };

    /// The method that a class declares with this number, and `None` past the last.
    fn method(&self, id: ClassId, k: u32) -> Option<MethodFact<'_>>
        requires { id.0 < length (classes self.now) }
        ensures method { option_map method_shown result ≡ option_map method_told (known.method_at (classes self.now) id.0 k) }
        ensures short { IfSome result (λ m. length m.code.now < 2 ^ 16) };

    /// A row of the exception table of the method with the number `m`, and `None` past the last, or where there is no such
    /// method or no code.
    fn handler(&self, id: ClassId, m: u32, k: u32) -> Option<Handler>
        requires { id.0 < length (classes self.now) }
        ensures { result ≡ known.handler_at (classes self.now) id.0 m k };

    /// The entry of the constant pool of a class at an index, and `Unusable` past the last.
    fn pool(&self, id: ClassId, k: u16) -> PoolFact<'_>
        requires { id.0 < length (classes self.now) }
        ensures { pool_shown result ≡ known.pool_at (classes self.now) id.0 k };

    /// How many instance fields an object of a class has, those of its superclasses among them, and how many static fields
    /// the class declares.
    fn sizes(&self, id: ClassId) -> (u32, u32)
        requires { id.0 < length (classes self.now) }
        ensures { option_map (λ f. (f.instance_size, f.static_size)) (slice_get (classes self.now) id.0) ≡ Some result };

    /// Where a class was taken from.
    fn source(&self, id: ClassId) -> Source
        requires { id.0 < length (classes self.now) }
        ensures folder { option_map (λ f. f.folder) (slice_get (classes self.now) id.0) ≡ Some result.folder }
        ensures archive { result.archive ≡ archive self.now id.0 };

    /// The cache word of a class at an index of its constant pool: what was set last, and 0 at first. It is 0 past the last
    /// index.
    fn cache(&self, id: ClassId, k: u16) -> u64
        requires { id.0 < length (classes self.now) }
        ensures word { result ≡ cached self.now id.0 k }
        ensures past { length (known.pool_of (classes self.now) id.0) ≤ k → cached self.now id.0 k ≡ 0 };

    /// Sets a cache word. This takes no memory, since `load` makes the room.
    fn set_cache(&mut self, id: ClassId, k: u16, value: u64)
        requires loaded { id.0 < length (classes self.old) }
        requires within { k < length (known.pool_of (classes self.old) id.0) }
        ensures set { cached self.new id.0 k ≡ value }
        ensures words { (i j : ℕ) → ((i ≡ id.0) × (j ≡ k) → ⊥) → cached self.new i j ≡ cached self.old i j }
        ensures classes { classes self.new ≡ classes self.old }
        ensures begun { begun self.new ≡ begun self.old }
        ensures reads { reads self.new ≡ reads self.old }
        ensures faults { read_faults self.new ≡ read_faults self.old }
        ensures stays { can_fail self.new → can_fail self.old }
        ensures writes { write_faults self.new ≡ write_faults self.old }
        ensures world { world self.new ≡ world self.old }
        ensures linked { (i : ℕ) → linked self.new i ≡ linked self.old i }
        ensures sources { (i : ℕ) → archive self.new i ≡ archive self.old i };
}
