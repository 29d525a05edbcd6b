//! The mnemonics of the instructions (JVMS 6.5), as the table of opcodes has them.
ghost use Rattle.std.specs.Prelude.{◌≡◌, ◌+◌, ◌≤◌, length, position};
ghost use Rattle.std.specs.List.{position_from};
ghost use Rattle.std.specs.Str.{bytes_eq};
ghost use Rattle.asm_text.specs.Mnemonics.{words, opcode_of, instruction_of};

// The mnemonics of a part of the table, with a space between two.
macro_rules! names {
    ([]
        $last:literal $variant:ident $form:ident:
            $code:literal $name:literal $(, $more_code:literal $more_name:literal)*;
        $($run_last:literal $run_variant:ident $run_form:ident:
            $($run_code:literal $run_name:literal),*;)*
    ) => {
        concat!($name $(, " ", $more_name)* $($(, " ", $run_name)*)*)
    };
}

// The place of a word among the words of a text.
fn place(names: &[u8], word: &[u8]) -> Option<usize>
    ensures { result ≡ position (bytes_eq word.now) (words names.now) }
{
    names.split(|b| *b == b' ').position(|name| word == name)
}

// The opcode byte of a word among the mnemonics of a part of the table, where the first has this byte.
fn opcode_among(first: u8, names: &str, word: &[u8]) -> Option<u8>
    requires { first + length (words names.now) ≤ 256 }
    ensures { result ≡ position_from (bytes_eq word.now) first (words names.now) }
{
    let Some(place) = place(names.as_bytes(), word) else {
        return None;
    };
    Some(first + place as u8)
}

// The opcode byte of a mnemonic.
fn opcode_of(word: &[u8]) -> Option<u8>
    ensures { result ≡ opcode_of word.now }
{
    if let Some(op) = opcode_among(0x00, jsa_ops::opcodes!(constants names), word) {
        return Some(op);
    }
    if let Some(op) = opcode_among(0x15, jsa_ops::opcodes!(loads names), word) {
        return Some(op);
    }
    if let Some(op) = opcode_among(0x36, jsa_ops::opcodes!(stores names), word) {
        return Some(op);
    }
    if let Some(op) = opcode_among(0x57, jsa_ops::opcodes!(math names), word) {
        return Some(op);
    }
    if let Some(op) = opcode_among(0x78, jsa_ops::opcodes!(tests names), word) {
        return Some(op);
    }
    if let Some(op) = opcode_among(0x99, jsa_ops::opcodes!(jumps names), word) {
        return Some(op);
    }
    opcode_among(0xb2, jsa_ops::opcodes!(objects names), word)
}

// The opcode byte of a word, and whether its member is a method of an interface.
#[tactic(auto, unfolding(crate::specs::Mnemonics::instruction_of))]
pub(crate) fn instruction_of(word: &[u8]) -> Option<(u8, bool)>
    ensures { result ≡ instruction_of word.now }
{
    if word == b"invokespecial_i".as_slice() {
        return Some((0xb7, true));
    }
    if word == b"invokestatic_i".as_slice() {
        return Some((0xb8, true));
    }
    let Some(op) = opcode_of(word) else {
        return None;
    };
    Some((op, false))
}
