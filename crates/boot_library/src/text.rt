//! The text of the boot library.
ghost use Rattle.std.specs.Prelude.{◌≡◌, ◌<◌, ◌-◌, ◌^◌, length};
ghost use Rattle.boot_library.specs.Home.{boot_text};

use crate::builders::builders;
use crate::classes::classes;
use crate::errors::errors;
use crate::exceptions::exceptions;
use crate::further::further;
use crate::numbers::numbers;
use crate::objects::objects;
use crate::streams::streams;
use crate::strings::strings;
use crate::values::values;

// Each part hands its text and those before it on to the next: only literals can be joined.
macro_rules! joined {
    ([] $($text:literal)*) => {
        concat!($($text),*)
    };
}

const BOOT_TEXT: &str =
    objects!([strings classes errors exceptions streams builders numbers values further joined]);

/// The classes of the boot library in the language of the assembler: first the 38 that every run over a home begins with, in the order
/// in which they are loaded, then the others.
#[tactic(auto, unfolding(crate::specs::Home::boot_text))]
pub fn boot_text() -> &'static str
    ensures value { result.now ≡ boot_text }
    ensures short { length result.now < 2 ^ 32 - 1 }
{
    BOOT_TEXT
}
