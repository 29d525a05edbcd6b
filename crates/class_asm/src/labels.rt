//! The labels of a code, and their places.
ghost use Rattle.std.specs.Prelude.{◌≡◌, ◌<◌, ◌-◌, ◌^◌, ◌+◌, ◌*◌, ◌∷◌, ◌++◌, min, [], position, length, Some, None, IfOk, IfErr, IfSome};
ghost use Rattle.std.specs.Option.{option_map};
ghost use Rattle.jsa_ops.specs.Spelling.{padding};
ghost use Rattle.asm_text.specs.Outcome.{Does, Yields};
ghost use Rattle.asm_text.specs.declared.fault.LineFault.TheVariants.{Memory};
ghost use Rattle.class_asm.specs.Labels as spec;

use asm_text::{LineFault, Operation, Statement};
use indexmap::IndexMap;
use jsa_ops::{Form, form_of};
use std::alloc::Global;
use std::marker::Model;

/// Labels with their places, in the order in which they stand, each once. A place is how many bytes of code stand before
/// what follows the label.
#[derive(Drop)]
pub struct Labels {
    places: IndexMap<Vec<u8>, u32>,
}

impl Model for Labels {
    ghost use Rattle.std.specs.Prelude.{List};
    ghost use Rattle.class_asm.specs.Labels.{Label, labels_in};

    ghost Value = { List Label };

    ghost view = { λ l. labels_in l.places.entries };
}

impl Labels {
    /// No labels.
    pub fn new(alloc: Global) -> Labels
        ensures { result ≡ [] }
    {
        Labels {
            places: IndexMap::new(alloc),
        }
    }

    /// The place of a label, and `None` where there is no such label.
    #[tactic(auto, unfolding(crate::specs::Labels::place_of))]
    pub fn place(&self, name: &[u8]) -> Option<u32>
        ensures { result ≡ spec.place_of self.now name.now }
    {
        self.places.get(name).copied()
    }

    /// How many labels stand before a label, and `None` where there is no such label.
    pub fn position(&self, name: &[u8]) -> Option<usize>
        ensures value { result ≡ position (spec.is_named name.now) self.now }
        ensures within { IfSome result (λ i. i < 2 ^ 64 - 1) }
    {
        let _count = self.places.len();
        self.places.get_index_of(name)
    }

    /// Adds a label behind the others, unless one of them has its name.
    #[tactic(auto, unfolding(crate::specs::Labels::with_label))]
    pub fn add(&mut self, alloc: Global, name: &[u8], place: u32) -> Result<(), LineFault>
        ensures { Does result self.new (Some (spec.with_label self.old name.now place)) }
    {
        if self.places.contains_key(name) {
            return Ok(());
        }
        let name = Vec::from_slice(alloc, name)?;
        self.places.insert(name, place)?;
        Ok(())
    }
}

pub(crate) fn is_near(op: u8) -> bool
    ensures { result ≡ spec.is_near op }
{
    matches!(form_of(op), Some(Form::NearConstant))
}

pub(crate) fn is_far(op: u8) -> bool
    ensures { result ≡ spec.is_far op }
{
    matches!(form_of(op), Some(Form::FarBranch))
}

pub(crate) fn fits_byte(n: i16) -> bool
    ensures { result ≡ spec.fits_byte n }
{
    -0x80 <= n && n < 0x80
}

// How many bytes a tableswitch with n labels takes, counted up to 2^32 labels.
fn table_size(place: u32, n: usize) -> u64
    ensures value { min result 0xFFFF_FFFF ≡ min (13 + padding place + 4 * n) 0xFFFF_FFFF }
    ensures small { result < 2 ^ 40 }
{
    13 + u64::from(3 - place % 4) + 4 * n.min(0x1_0000_0000) as u64
}

// How many bytes a lookupswitch with n cases takes, counted up to 2^32 cases.
fn lookup_size(place: u32, n: usize) -> u64
    ensures value { min result 0xFFFF_FFFF ≡ min (9 + padding place + 8 * n) 0xFFFF_FFFF }
    ensures small { result < 2 ^ 40 }
{
    9 + u64::from(3 - place % 4) + 8 * n.min(0x1_0000_0000) as u64
}

// How many bytes an operation takes at a place, exactly where they are fewer than 2^32.
#[tactic(auto, unfolding(crate::specs::Labels::size))]
fn size(place: u32, operation: &Operation) -> u64
    ensures value { min result 0xFFFF_FFFF ≡ min (spec.size place operation.now) 0xFFFF_FFFF }
    ensures small { result < 2 ^ 40 }
{
    match operation {
        Operation::Plain(_) => 1,
        Operation::Byte(_, _) => 2,
        Operation::Short(_, _) => 3,
        Operation::Load(op, _) => { if is_near(*op) { 2 } else { 3 } }
        Operation::Local(_, local) => { if *local < 256 { 2 } else { 4 } }
        Operation::Iinc(_, local, amount) => {
            if *local < 256 && fits_byte(*amount) {
                3
            } else {
                6
            }
        }
        Operation::Branch(op, _) => { if is_far(*op) { 5 } else { 3 } }
        Operation::Member(_, _, _) => 3,
        Operation::Interface(_, _, _) => 5,
        Operation::ClassOf(_, _) => 3,
        Operation::NewArray(_, _) => 2,
        Operation::MultiArray(_, _, _) => 4,
        Operation::TableSwitch(_, _, _, labels) => table_size(place, labels.len()),
        Operation::LookupSwitch(_, _, cases) => lookup_size(place, cases.len()),
    }
}

// The place behind an operation.
fn behind(place: u32, operation: &Operation) -> u32
    ensures { result ≡ spec.behind place (spec.size place operation.now) }
{
    (u64::from(place) + size(place, operation)).min(0xFFFF_FFFF) as u32
}

// Adds the label of a line, and gives the place behind the line; none where it is no line of code.
fn pass_line(
    alloc: Global,
    labels: &mut Labels,
    place: u32,
    line: &Option<Statement>,
) -> Result<Option<u32>, LineFault>
    ensures passes { IfOk result (λ next. spec.Passes labels.old labels.new next (spec.labels_after (labels.old, place) line.now)) }
    ensures memory { IfErr result (λ fault. fault ≡ Memory) }
{
    match line {
        Some(Statement::Label(name)) => {
            labels.add(alloc, name.as_slice(), place)?;
            Ok(Some(place))
        }
        Some(Statement::Operation(operation)) => Ok(Some(behind(place, operation))),
        Some(Statement::Catch(_)) => Ok(Some(place)),
        Some(Statement::Frame(_)) => Ok(Some(place)),
        Some(Statement::Blank) => Ok(Some(place)),
        Some(Statement::Class(_)) => Ok(None),
        Some(Statement::Version(_)) => Ok(None),
        Some(Statement::Field(_)) => Ok(None),
        Some(Statement::Method(_)) => Ok(None),
        Some(Statement::Code(_)) => Ok(None),
        Some(Statement::End) => Ok(None),
        None => Ok(None),
    }
}

/// The labels of the lines of code in front, up to the first line that is none.
#[tactic(auto, unfolding(crate::specs::Labels::labels_of))]
pub fn labels_of(alloc: Global, lines: &[Option<Statement>]) -> Result<Labels, LineFault>
    ensures { Yields (λ labels. labels) result (Some (spec.labels_of ([], 0) lines.now)) }
{
    let mut labels = Labels::new(alloc);
    let mut place = 0;
    let mut rest = lines;
    loop {
        let [line, more @ ..] = rest else {
            return Ok(labels);
        };
        match pass_line(alloc, &mut labels, place, line)? {
            Some(next) => place = next,
            None => return Ok(labels),
        }
        rest = more;
    }
}
