ghost use Rattle.std.specs.Prelude.{◌≡◌};
ghost use Rattle.jsa_ops.specs.Opcodes.{form_of as form_at};

/// What stands behind an opcode byte (JVMS 6.5). All numbers are of the code's bytes, the high byte first.
#[derive(Debug, Clone, Copy, PartialEq, Eq, Drop)]
pub enum Form {
    /// Nothing.
    Plain,
    /// A signed byte: bipush.
    Byte,
    /// A signed number of two bytes: sipush.
    Short,
    /// A pool index of one byte: ldc.
    NearConstant,
    /// A pool index of two bytes: ldc_w and ldc2_w.
    Constant,
    /// A local of one byte: a load, a store or ret.
    Local,
    /// A local of one byte and a signed byte: iinc.
    Iinc,
    /// A signed distance of two bytes.
    Branch,
    /// A signed distance of four bytes: goto_w and jsr_w.
    FarBranch,
    /// A pool index of two bytes: a field instruction, invokevirtual, invokespecial or invokestatic.
    Member,
    /// A pool index of two bytes and two bytes: invokeinterface.
    Interface,
    /// A pool index of two bytes and two bytes: invokedynamic.
    Dynamic,
    /// A pool index of two bytes: new, anewarray, checkcast or instanceof.
    ClassOf,
    /// A byte: newarray.
    NewArray,
    /// A pool index of two bytes and a byte: multianewarray.
    MultiArray,
    /// Padding, default, low, high and the distances: tableswitch.
    TableSwitch,
    /// Padding, default, the number of pairs and the pairs: lookupswitch.
    LookupSwitch,
    /// Another opcode and its wider operands: wide.
    Wide,
}

macro_rules! form_rows {
    ([$byte:ident] $($last:literal $variant:ident $form:ident: $($code:literal $name:literal),*;)*) => {
        $(
            if $byte <= $last {
                return Some(Form::$form);
            }
        )*
    };
}

/// The form of an opcode. `None` where the byte is no opcode of JVMS 6.5: above `0xc9`.
#[tactic(auto, unfolding(crate::specs::Opcodes::form_of))]
pub fn form_of(byte: u8) -> Option<Form>
    ensures { result ≡ form_at byte }
{
    crate::opcodes!(each form_rows byte);
    None
}
