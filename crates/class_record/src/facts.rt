//! What is told of a loaded class. The texts are borrowed from where the class is held.

/// A loaded class: its place in the load order, from 0 on.
#[derive(Clone, Copy, Debug, PartialEq, Eq)]
pub struct ClassId(pub u32);

/// Where a loaded class was taken from.
#[derive(Clone, Copy, Debug, PartialEq, Eq)]
pub struct Source {
    /// The archive that holds it, counted from the lowest. `None` for a class that was read from its file.
    pub archive: Option<u8>,
    /// The number of the folder that its file is in: 0 for the boot folder, 1 for the platform folder, and those from 2 on
    /// for the application folders.
    pub folder: u32,
}

/// A field of a loaded class (JVMS 4.5), as `FieldRecord` says it.
#[derive(Clone, Copy, Debug)]
pub struct FieldFact<'a> {
    pub name: &'a [u8],
    pub desc: &'a [u8],
    pub flags: u16,
    pub slot: u32,
    pub value: u16,
}

/// A method of a loaded class (JVMS 4.6), as `MethodRecord` says it. One without code has an empty code, and a stack and
/// locals of 0.
#[derive(Clone, Copy, Debug)]
pub struct MethodFact<'a> {
    pub name: &'a [u8],
    pub desc: &'a [u8],
    pub flags: u16,
    pub stack: u16,
    pub locals: u16,
    pub code: &'a [u8],
}

/// An entry of the constant pool of a loaded class, as `PoolName` says it.
#[derive(Clone, Copy)]
pub enum PoolFact<'a> {
    Unusable,
    Utf8(&'a [u8]),
    Integer(u32),
    Float(u32),
    Long(u64),
    Double(u64),
    Class(&'a [u8]),
    Str(&'a [u8]),
    Fieldref(u16, u16),
    Methodref(u16, u16),
    InterfaceMethodref(u16, u16),
    NameAndType(&'a [u8], &'a [u8]),
    MethodHandle(u8, u16),
    MethodType(&'a [u8]),
    InvokeDynamic(u16, u16),
}
