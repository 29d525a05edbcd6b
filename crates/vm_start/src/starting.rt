//! The start of a run.
ghost use Rattle.std.specs.Prelude.{◌≡◌, ◌++◌, ◌<◌, ℕ, true, List, length, IsErrOf};
ghost use Rattle.class_record.specs.Worlds.{AsTold};
ghost use Rattle.class_record.specs.Facts.{Facts, names_of};
ghost use Rattle.class_record.specs.Calls.{CountsRead, NamesLimit};
ghost use Rattle.class_record.specs.Starting.{Answers, AnswersStart, LinksRequired, NamesClass, start_main};

use crate::fetching::fetch;
use crate::required::required;
use class_record::{Classes, ClassesFault, Start};
use loader_rules::Loader;

/// Begins a run: loads and links the classes that every run begins with from the boot loader, one after the other, and then
/// loads the main class from the application loader (JVMS 5.2, 5.3, 5.4).
///
/// A required class is wanting where its load or its link isn't Ok, where its superclass, its list of direct superinterfaces
/// or its flag ACC_INTERFACE is another than it is asked for, where it declares a method `<clinit>`, and where the instance
/// field that it is to have isn't there. Nothing is loaded after it. After `NoMain` and `Ready` each required class is linked.
///
/// # Errors
///
/// Those of `load` and `link`. Whatever comes, what was loaded stays loaded.
pub fn start_run<C: Classes>(classes: &mut C, main: &[u8]) -> Result<Start, ClassesFault>
    ensures told { AsTold (C.world classes.old) (λ w. AnswersStart w main.now
        (record { order = names_of (C.classes classes.old); begun = C.begun classes.old; reads = C.reads classes.old })
        (record { order = names_of (C.classes classes.new); begun = C.begun classes.new; reads = C.reads classes.new }) result) }
    ensures names { NamesClass (names_of (C.classes classes.new)) main.now result }
    ensures grows { (more : List Facts) × (C.classes classes.new ≡ C.classes classes.old ++ more) }
    ensures limit { NamesLimit result }
    ensures cause { CountsRead (C.read_faults classes.old) (C.read_faults classes.new) result }
    ensures failed { IsErrOf result ClassesFault.Read → C.can_fail classes.old }
    ensures stays { C.can_fail classes.new → C.can_fail classes.old }
    ensures writes { C.write_faults classes.new ≡ C.write_faults classes.old }
    ensures world { C.world classes.new ≡ C.world classes.old }
    ensures linked { LinksRequired (names_of (C.classes classes.new)) (C.linked classes.new) result }
    ensures still_linked { (id : ℕ) → C.linked classes.old id ≡ true → C.linked classes.new id ≡ true }
    ensures words { (id k : ℕ) → C.cached classes.new id k ≡ C.cached classes.old id k }
    ensures sources { (id : ℕ) → id < length (C.classes classes.old) → C.archive classes.new id ≡ C.archive classes.old id }
{
    let mut number = 1;
    while let Some(row) = required(number) {
        match fetch(classes, &row) {
            Err(fault) => return Err(fault),
            Ok(false) => return Ok(Start::NoBoot(number)),
            Ok(true) => number += 1,
        }
    }
    load_main(classes, main)
}

fn load_main<C: Classes>(classes: &mut C, main: &[u8]) -> Result<Start, ClassesFault>
    ensures told { AsTold (C.world classes.old) (λ w. Answers w main.now (start_main w main.now)
        (record { order = names_of (C.classes classes.old); begun = C.begun classes.old; reads = C.reads classes.old })
        (record { order = names_of (C.classes classes.new); begun = C.begun classes.new; reads = C.reads classes.new }) result) }
    ensures names { NamesClass (names_of (C.classes classes.new)) main.now result }
    ensures grows { (more : List Facts) × (C.classes classes.new ≡ C.classes classes.old ++ more) }
    ensures limit { NamesLimit result }
    ensures cause { CountsRead (C.read_faults classes.old) (C.read_faults classes.new) result }
    ensures failed { IsErrOf result ClassesFault.Read → C.can_fail classes.old }
    ensures stays { C.can_fail classes.new → C.can_fail classes.old }
    ensures writes { C.write_faults classes.new ≡ C.write_faults classes.old }
    ensures world { C.world classes.new ≡ C.world classes.old }
    ensures linked { (id : ℕ) → C.linked classes.new id ≡ C.linked classes.old id }
    ensures words { (id k : ℕ) → C.cached classes.new id k ≡ C.cached classes.old id k }
    ensures sources { (id : ℕ) → id < length (C.classes classes.old) → C.archive classes.new id ≡ C.archive classes.old id }
{
    match classes.load(main, Loader::App) {
        Err(fault) => Err(fault),
        Ok(Err(_)) => Ok(Start::NoMain),
        Ok(Ok(id)) => Ok(Start::Ready(id)),
    }
}
