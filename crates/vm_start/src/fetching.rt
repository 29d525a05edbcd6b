//! One step of the start of a run: a class is loaded, linked and looked at.
ghost use Rattle.std.specs.Prelude.{◌≡◌, ◌++◌, ◌<◌, ℕ, true, List, Some, length, slice_get, IfOk, IsErrOf};
ghost use Rattle.class_record.specs.Worlds.{AsTold};
ghost use Rattle.class_record.specs.Facts.{Facts, names_of};
ghost use Rattle.class_record.specs.Calls.{CountsRead, NamesLimit};
ghost use Rattle.class_record.specs.Starting as spec;
ghost use Rattle.class_record.specs.Starting.{IsLinkedClass};
ghost use Rattle.vm_start.specs.Steps.{AnswersTest};
ghost use Rattle.vm_start.specs.Table.{row_of};

use crate::asked::meets;
use crate::required::Row;
use class_record::{ClassId, Classes, ClassesFault};
use loader_rules::Loader;

/// Loads a required class from the boot loader and links it. The answer is whether both are Ok and it is as it is asked for.
pub(crate) fn fetch<C: Classes>(classes: &mut C, row: &Row) -> Result<bool, ClassesFault>
    ensures told { AsTold (C.world classes.old) (λ w. AnswersTest w (row_of row.now) (spec.fetch w (row_of row.now))
        (record { order = names_of (C.classes classes.old); begun = C.begun classes.old; reads = C.reads classes.old })
        (record { order = names_of (C.classes classes.new); begun = C.begun classes.new; reads = C.reads classes.new }) result) }
    ensures grows { (more : List Facts) × (C.classes classes.new ≡ C.classes classes.old ++ more) }
    ensures limit { NamesLimit result }
    ensures cause { CountsRead (C.read_faults classes.old) (C.read_faults classes.new) result }
    ensures failed { IsErrOf result ClassesFault.Read → C.can_fail classes.old }
    ensures stays { C.can_fail classes.new → C.can_fail classes.old }
    ensures writes { C.write_faults classes.new ≡ C.write_faults classes.old }
    ensures world { C.world classes.new ≡ C.world classes.old }
    ensures linked { IfOk result (λ good. good ≡ true → IsLinkedClass (names_of (C.classes classes.new)) (C.linked classes.new) row.now.name.now) }
    ensures still_linked { (id : ℕ) → C.linked classes.old id ≡ true → C.linked classes.new id ≡ true }
    ensures words { (id k : ℕ) → C.cached classes.new id k ≡ C.cached classes.old id k }
    ensures sources { (id : ℕ) → id < length (C.classes classes.old) → C.archive classes.new id ≡ C.archive classes.old id }
{
    match classes.load(row.name.as_bytes(), Loader::Boot) {
        Err(fault) => Err(fault),
        Ok(Err(_)) => Ok(false),
        Ok(Ok(id)) => link_loaded(classes, id, row),
    }
}

fn link_loaded<C: Classes>(classes: &mut C, id: ClassId, row: &Row) -> Result<bool, ClassesFault>
    requires { slice_get (names_of (C.classes classes.old)) id.0 ≡ Some row.now.name.now }
    ensures told { AsTold (C.world classes.old) (λ w. AnswersTest w (row_of row.now) (w.link row.now.name.now)
        (record { order = names_of (C.classes classes.old); begun = C.begun classes.old; reads = C.reads classes.old })
        (record { order = names_of (C.classes classes.new); begun = C.begun classes.new; reads = C.reads classes.new }) result) }
    ensures grows { (more : List Facts) × (C.classes classes.new ≡ C.classes classes.old ++ more) }
    ensures limit { NamesLimit result }
    ensures cause { CountsRead (C.read_faults classes.old) (C.read_faults classes.new) result }
    ensures failed { IsErrOf result ClassesFault.Read → C.can_fail classes.old }
    ensures stays { C.can_fail classes.new → C.can_fail classes.old }
    ensures writes { C.write_faults classes.new ≡ C.write_faults classes.old }
    ensures world { C.world classes.new ≡ C.world classes.old }
    ensures linked { IfOk result (λ good. good ≡ true → IsLinkedClass (names_of (C.classes classes.new)) (C.linked classes.new) row.now.name.now) }
    ensures still_linked { (id : ℕ) → C.linked classes.old id ≡ true → C.linked classes.new id ≡ true }
    ensures words { (id k : ℕ) → C.cached classes.new id k ≡ C.cached classes.old id k }
    ensures sources { (id : ℕ) → id < length (C.classes classes.old) → C.archive classes.new id ≡ C.archive classes.old id }
{
    match classes.link(id) {
        Err(fault) => Err(fault),
        Ok(Some(_)) => Ok(false),
        Ok(None) => {
            let _count = classes.count();
            Ok(meets(classes, id, row))
        }
    }
}
