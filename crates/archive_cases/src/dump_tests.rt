// What no contract says: the bytes of an archive, and that one is written where memory suffices.
use archive_dump::{DumpFault, dump_static, dumps_are_archives};
use archive_header::{Manifest, read_manifest};
use plain_classes::PlainClass;
use sha2::{Digest, Sha256};
use sqlite_items::Items;
use std::alloc::Global;
use std::test::Fail;

fn class(alloc: Global, name: &[u8], bytes: &[u8]) -> Result<PlainClass, Fail> {
    Ok(PlainClass {
        name: Items::from_slice(alloc, name)?,
        bytes: Items::from_slice(alloc, bytes)?,
    })
}

// So many classes without a name, each of no bytes.
fn nameless(alloc: Global, count: u32) -> Result<Vec<PlainClass>, Fail> {
    let mut classes = Vec::new(alloc);
    for _ in 0..count {
        classes.push(class(alloc, &[], &[])?)?;
    }
    Ok(classes)
}

// One application folder `d`, without files.
const MANIFEST: [u8; 24] = [
    0, 0, 0, 0, 0, 0, 0, 0, 1, 0, 0, 0, 1, 0, 0, 0, 0x64, 0, 0, 0, 0, 0, 0, 0,
];

// What is written of the classes and the folder `d`.
fn dumped(alloc: Global, classes: &[PlainClass]) -> Result<Result<Vec<u8>, DumpFault>, Fail> {
    let manifest: Manifest = read_manifest(alloc, &MANIFEST)?.ok_or("no manifest")?;
    Ok(dump_static(alloc, classes, &manifest))
}

// A class `A` of three bytes.
const CLASS: [u8; 12] = [1, 0, 0, 0, 0x41, 3, 0, 0, 0, 7, 8, 9];

// Places 0 to 103: the magic, the format and four bytes 0, the base, the sizes of the four parts, one class, the root and
// the identity of the archive below.
const FIELDS: [u8; 104] = [
    0x4a, 0x53, 0x41, 0x43, 0x44, 0x53, 0x0d, 0x0a, 0, 0, 0, 0, 0, 0, 0, 0, 0, 0, 0, 0, 8, 0, 0, 0,
    0, 0, 0, 0, 0, 0, 0, 0, 12, 0, 0, 0, 0, 0, 0, 0, 0, 0, 0, 0, 0, 0, 0, 0, 24, 0, 0, 0, 0, 0, 0,
    0, 1, 0, 0, 0, 0, 0, 0, 0, 0, 0, 0, 0, 0, 0, 0, 0, 0, 0, 0, 0, 0, 0, 0, 0, 0, 0, 0, 0, 0, 0, 0,
    0, 0, 0, 0, 0, 0, 0, 0, 0, 0, 0, 0, 0, 0, 0, 0, 0,
];

fn wanted(alloc: Global) -> Result<Vec<u8>, Fail> {
    let mut body = Vec::from_slice(alloc, &CLASS)?;
    body.extend_from_slice(&MANIFEST)?;
    let mut bytes = Vec::from_slice(alloc, &FIELDS)?;
    bytes.extend_from_slice(&Sha256::digest(&body))?;
    bytes.extend_from_slice(&[0; 88])?;
    let identity = Sha256::digest(&bytes);
    bytes.extend_from_slice(&identity)?;
    bytes.extend_from_slice(&body)?;
    Ok(bytes)
}

#[test]
fn an_archive_has_its_parts_at_their_places(rt: HostRuntime) -> Result<(), Fail> {
    let alloc = rt.alloc();
    let classes = [class(alloc, b"A", &[7, 8, 9])?];
    let first = dumped(alloc, &classes)?;
    let second = dumped(alloc, &classes)?;
    let wanted = wanted(alloc)?;
    assert_eq!(rt; wanted.len(), 292);
    assert!(rt;
        first
            .ok()
            .is_some_and(|bytes| bytes.as_slice() == wanted.as_slice())
    );
    assert!(rt;
        second
            .ok()
            .is_some_and(|bytes| bytes.as_slice() == wanted.as_slice())
    );
    dumps_are_archives();
    Ok(())
}

#[test]
fn there_are_at_most_65_535_classes(rt: HostRuntime) -> Result<(), Fail> {
    let alloc = rt.alloc();
    let mut classes = nameless(alloc, 65_535)?;
    let most = dumped(alloc, &classes)?;
    assert_eq!(rt; most.ok().map(|bytes| bytes.len()), Some(524_560));
    classes.push(class(alloc, &[], &[])?)?;
    let more = dumped(alloc, &classes)?;
    assert_eq!(rt; more.err(), Some(DumpFault::TooMany));
    Ok(())
}

#[test]
fn a_large_class_is_too_large(rt: HostRuntime) -> Result<(), Fail> {
    let alloc = rt.alloc();
    // A header, the manifest and two lengths beside it make 288 bytes.
    let bytes = vec![in alloc; 0_u8; 67_108_577]?;
    let classes = [PlainClass {
        name: Items::new(alloc),
        bytes: Items::from_vec(bytes),
    }];
    let more = dumped(alloc, &classes)?;
    assert_eq!(rt; more.err(), Some(DumpFault::TooLarge));
    Ok(())
}
