//! The end of a command in which the store answered a fault.
ghost use Rattle.std.specs.Prelude.{◌≡◌};
ghost use Rattle.jsa.specs.Faults.{end_of};

use crate::ended::Ended;
use jsa_base::Quantity;
use jsa_files::{FilesFault, MAX_FILE, MAX_NAMES};

/// The end of a command in which the store answered this fault of reading.
pub(crate) fn end_of(fault: FilesFault) -> Ended
    ensures { result ≡ end_of fault }
{
    match fault {
        FilesFault::Failed => Ended::ReadFault,
        FilesFault::TooLarge(_) => Ended::Limit(Quantity::FileSize, MAX_FILE as u64),
        FilesFault::TooMany(_) => Ended::Limit(Quantity::Names, MAX_NAMES as u64),
        FilesFault::Memory => Ended::Memory,
    }
}
