//! The cases: each a method or a few, and what their class is found to ask.
//!
//! A case begins with the line of its name. Lines of the assembler follow (a case without a `class` line is of
//! `class 0x0021 p/T java/lang/Object`), then changes that no line of the assembler can make, which are of the last method:
//!
//! - `@code P B ..` puts bytes into its code from the place P on, in hexadecimal;
//! - `@map B ..` is the content of its StackMapTable, whose name a field of the case has;
//! - `@handler START END HANDLER CATCH` is one more row of its exception table.
//!
//! The last line is what is found: `ok` or the questions `FROM:TO` in their order, then, where there is a fault, `!` with its
//! method and its place. A `~` says that other machines may find otherwise: the case hangs on a class that they don't
//! let anyone write, or on a choice of this project.
use crate::arrays_table::ARRAYS;
use crate::calls_table::CALLS;
use crate::frames_table::FRAMES;
use crate::handlers_table::HANDLERS;
use crate::locals_table::LOCALS;
use crate::objects_table::OBJECTS;
use crate::order_table::ORDER;
use crate::stack_table::STACK;
use crate::supers_table::SUPERS;
use crate::types_table::TYPES;

/// The tables of all cases.
pub(crate) const TABLES: [&str; 10] = [
    LOCALS, STACK, TYPES, FRAMES, HANDLERS, OBJECTS, ARRAYS, CALLS, SUPERS, ORDER,
];
