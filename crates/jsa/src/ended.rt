//! How a command ended, and its status.
ghost use Rattle.std.specs.Prelude.{◌≡◌};
ghost use Rattle.jsa.specs.Ended.{status_of};

use archive_header::Refuse;
use jsa_base::Quantity;

/// How a command ended.
#[derive(Clone, Copy, Debug, PartialEq, Eq)]
pub enum Ended {
    /// The run ended, with this status. Another command whose files were written ends with 0.
    Exit(u8),
    /// The words are outside the grammar of commands.
    Usage,
    /// This line of the text is the first outside the grammar, counted from 1. Where an `end` is missing at the end of the
    /// text it is the line after the last.
    BadText(u32),
    /// A required class of a run over a home is wanting: it doesn't load or link, or isn't as it is asked for.
    NoBoot,
    /// The main class doesn't load. Of a run with an archive option: no mapped archive holds it, and the folder has no file of
    /// it.
    NoMain,
    /// The class list of a dump or the text of an assembly isn't there.
    Missing,
    /// The archive was to be used and is refused, for this reason, which is never `Memory`.
    NotShared(Refuse),
    /// As many turns were made as the limit, and the run hasn't ended.
    Stopped,
    /// The main class is none that can be run yet, or a listed class has no file, or one that has no such class inside or
    /// one with another name.
    Unsupported,
    /// A file could not be read.
    ReadFault,
    /// The program's output, the archive, a class list or a class file could not be written. Where it is the class list of a
    /// run, `main` has returned.
    WriteFault,
    /// The quantity is the first that passes its limit, which is the number.
    Limit(Quantity, u64),
    /// Memory ran out.
    Memory,
}

/// The status of the process: that of the run, or a number for each other end.
pub fn status(ended: Ended) -> u8
    ensures { result ≡ status_of ended }
{
    match ended {
        Ended::Exit(code) => code,
        Ended::Usage => 2,
        Ended::NoBoot => 3,
        Ended::NoMain => 4,
        Ended::Missing => 5,
        Ended::NotShared(_) => 6,
        Ended::BadText(_) => 7,
        Ended::Stopped => 8,
        Ended::Unsupported => 9,
        Ended::ReadFault => 11,
        Ended::WriteFault => 12,
        Ended::Limit(_, _) => 13,
        Ended::Memory => 14,
    }
}
