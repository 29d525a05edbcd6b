//! What lines need of a constant pool (JVMS 4.4). Each call answers the index of what is needed, `Outside` where the pool has
//! no room for it.
ghost use Rattle.std.specs.Prelude.{ℕ, List, Option};
ghost use Rattle.asm_text.specs.Outcome.{Gives};
ghost use Rattle.class_tree.specs.declared.constant_pool.PoolEntry.{PoolEntry};
ghost use Rattle.pool_builder.specs.Needs.{utf8_needed, class_needed};
ghost use Rattle.pool_builder.specs.Outcome.{Finds};
ghost use Rattle.class_asm.specs.Needs.{constant_needed, member_needed};

use asm_text::{Constant, LineFault, MemberKind, MemberName};
use pool_builder::{PoolBuilder, PoolFault};
use std::alloc::Global;

// A pool without room puts a line outside.
fn of_line(found: Result<u16, PoolFault>) -> Result<u16, LineFault>
    ensures { (left : List PoolEntry) (need : Option (ℕ × List PoolEntry)) → Finds found left need → Gives (λ n. n) result left need }
{
    match found {
        Ok(index) => Ok(index),
        Err(PoolFault::NoRoom) => Err(LineFault::Outside),
        Err(PoolFault::Memory) => Err(LineFault::Memory),
    }
}

/// The index of a text.
pub fn utf8_index(alloc: Global, text: &[u8], pool: &mut PoolBuilder) -> Result<u16, LineFault>
    ensures { Gives (λ n. n) result pool.new (utf8_needed text.now pool.old) }
{
    of_line(pool.utf8(alloc, text))
}

/// The index of a class, or of an array by its descriptor.
pub fn class_index(alloc: Global, name: &[u8], pool: &mut PoolBuilder) -> Result<u16, LineFault>
    ensures { Gives (λ n. n) result pool.new (class_needed name.now pool.old) }
{
    of_line(pool.class(alloc, name))
}

/// The index of a constant, of a long its first.
#[tactic(auto, unfolding(crate::specs::Needs::constant_needed))]
pub fn constant_index(
    alloc: Global,
    constant: &Constant,
    pool: &mut PoolBuilder,
) -> Result<u16, LineFault>
    ensures { Gives (λ n. n) result pool.new (constant_needed constant.now pool.old) }
{
    match constant {
        Constant::Integer(n) => of_line(pool.integer(alloc, *n)),
        Constant::Long(n) => of_line(pool.long(alloc, *n)),
        Constant::Text(string) => of_line(pool.string(alloc, string.as_slice())),
        Constant::Class(name) => of_line(pool.class(alloc, name.as_slice())),
    }
}

/// The index of a member.
#[tactic(auto, unfolding(crate::specs::Needs::member_needed))]
pub fn member_index(
    alloc: Global,
    kind: MemberKind,
    member: &MemberName,
    pool: &mut PoolBuilder,
) -> Result<u16, LineFault>
    ensures { Gives (λ n. n) result pool.new (member_needed kind member.now pool.old) }
{
    let class = member.class.as_slice();
    let name = member.name.as_slice();
    let desc = member.desc.as_slice();
    match kind {
        MemberKind::Field => of_line(pool.field(alloc, class, name, desc)),
        MemberKind::Method => of_line(pool.method(alloc, class, name, desc)),
        MemberKind::InterfaceMethod => of_line(pool.interface_method(alloc, class, name, desc)),
    }
}
