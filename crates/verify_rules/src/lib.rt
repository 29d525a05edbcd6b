//! The rules of verification by type checking (JVMS 4.10.1): verification types and frames, the frames that a StackMapTable
//! declares, what each instruction takes, puts and asks, and what is found of a method and of a class. The code that answers
//! by these rules stands in `verify_types` and `type_verifier`.
#![tactic(auto)]

mod ask;
mod cause;
mod checking;
mod copies;
mod effect;
mod fault;
mod letter;
mod stack;
mod superclass;
mod types;
mod written;

pub use ask::Ask;
pub use cause::{Cause, Stop};
pub use checking::{Checked, Place};
pub use copies::{all_copied, copied, frame_copied, is_copy_of, size, turn_locals};
pub use effect::Effect;
pub use fault::VerifyFault;
pub use letter::Letter;
pub use stack::{TypeStack, item, stack_copied, units_within};
pub use superclass::{Member, Superclass};
pub use types::{Frame, Unfinished, VType};
pub use written::{Change, WrittenFrame, WrittenType};
