//! Why an archive was refused.

/// Why an archive was refused.
#[derive(Clone, Copy, Debug, PartialEq, Eq)]
pub enum Refuse {
    /// There are fewer bytes than a header has.
    Short,
    /// The first eight bytes aren't those of an archive.
    Magic,
    /// The format is another than the one that is read: the number found.
    Version(u32),
    /// A digest that the archive keeps isn't the one of its bytes.
    Digest { kept: [u8; 32], found: [u8; 32] },
    /// The identity that the archive keeps of the one below isn't the identity of that one.
    Layer { kept: [u8; 32], found: [u8; 32] },
    /// The bytes break a rule of the format.
    Malformed,
    /// The folder of this number is absent now or has another path or another list of files, or it is a boot or platform
    /// folder that is there now and wasn't when the archive was made: boot 0, platform 1, application from 2.
    Path(u32),
    /// The archive cannot stand at this base: the base and the number of bytes from there on.
    Base { base: u64, span: u64 },
    /// Memory ran out.
    Memory,
}
