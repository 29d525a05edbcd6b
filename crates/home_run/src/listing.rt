//! Writes the class list of a run.
ghost use Rattle.std.specs.Prelude.{◌≡◌, Some};
ghost use Rattle.std.specs.Option.{option_map};
ghost use Rattle.std.specs.String.{string_bytes};
ghost use Rattle.class_record.specs.Facts.{names_of};
ghost use Rattle.class_record.specs.ClassList.{class_list};
ghost use Rattle.command_words.specs.Requests.{home_view};
ghost use Rattle.jsa_files.specs.Told.{contents_told, reads_told};
ghost use Rattle.home_run.specs.Steps.{ListAnswers, CountsList};

use crate::end::HomeEnd;
use class_linker::Fresh;
use command_words::HomeRun;
use jsa_files::{Files, FilesFault};
use std::alloc::Global;
use vm_start::load_list;

fn write_list<F: Files>(alloc: Global, path: &str, list: &[u8], files: &mut F) -> HomeEnd
    ensures answer { ListAnswers (contents_told (F.store files.old)) (contents_told (F.store files.new)) (F.write_faults files.old, F.write_faults files.new) (Some path.now) list.now result }
    ensures reads { reads_told (F.store files.new) ≡ reads_told (F.store files.old) }
    ensures write_fault { CountsList (F.write_faults files.old) (F.write_faults files.new) result }
    ensures read_faults { F.read_faults files.new ≡ F.read_faults files.old }
    ensures can_fail { result ≡ HomeEnd.Write → F.can_fail files.old }
    ensures stays { F.can_fail files.new → F.can_fail files.old }
{
    match files.write(alloc, path, list) {
        Ok(()) => HomeEnd::Exit,
        Err(FilesFault::Failed) => HomeEnd::Write,
        Err(FilesFault::TooLarge(_)) => unreachable!(),
        Err(FilesFault::TooMany(_)) => unreachable!(),
        Err(FilesFault::Memory) => HomeEnd::Memory,
    }
}

/// Writes the names of the loaded classes, where a file is given for them, and gives the store back.
pub(crate) fn list_classes<F: Files>(
    alloc: Global,
    request: &HomeRun,
    classes: Fresh<F>,
) -> (HomeEnd, F)
    ensures answer { ListAnswers (contents_told (F.store classes.files)) (contents_told (F.store result.1)) (F.write_faults classes.files, F.write_faults result.1) (home_view request.now).list (class_list (names_of classes.loaded.classes)) result.0 }
    ensures reads { reads_told (F.store result.1) ≡ reads_told (F.store classes.files) }
    ensures write_fault { CountsList (F.write_faults classes.files) (F.write_faults result.1) result.0 }
    ensures read_faults { F.read_faults result.1 ≡ F.read_faults classes.files }
    ensures can_fail { result.0 ≡ HomeEnd.Write → F.can_fail classes.files }
    ensures stays { F.can_fail result.1 → F.can_fail classes.files }
{
    let Some(path) = &request.list else {
        return (HomeEnd::Exit, classes.into_files());
    };
    let Ok(list) = load_list(alloc, &classes) else {
        return (HomeEnd::Memory, classes.into_files());
    };
    let mut files = classes.into_files();
    let end = write_list(alloc, path.as_str(), list.as_slice(), &mut files);
    (end, files)
}
