// What no contract says: the bytes of classes, and that they are read where memory suffices.
use plain_classes::{
    PlainClass, are_distinct, are_named, class_in, classes_size, have_short_texts, one_archive,
    read_classes, write_classes,
};
use sqlite_items::Items;
use std::alloc::Global;
use std::process::Abort;
use std::test::Fail;

fn class(alloc: Global, name: &[u8], bytes: &[u8]) -> Result<PlainClass, Fail> {
    Ok(PlainClass {
        name: Items::from_slice(alloc, name)?,
        bytes: Items::from_slice(alloc, bytes)?,
    })
}

// A class `A` of three bytes, and a class `p/B` of none.
fn two(alloc: Global) -> Result<Vec<PlainClass>, Fail> {
    let mut classes = Vec::new(alloc);
    classes.push(class(alloc, b"A", &[7, 8, 9])?)?;
    classes.push(class(alloc, b"p/B", &[])?)?;
    Ok(classes)
}

const TWO: [u8; 23] = [
    1, 0, 0, 0, 0x41, 3, 0, 0, 0, 7, 8, 9, 3, 0, 0, 0, 0x70, 0x2f, 0x42, 0, 0, 0, 0,
];

#[test]
fn two_classes_have_these_bytes(rt: HostRuntime) -> Result<(), Fail> {
    let classes = two(rt.alloc())?;
    let short = have_short_texts(&classes);
    assert!(rt; short && classes.len() < 65_536);
    let bytes = write_classes(rt.alloc(), &classes)?;
    assert_eq!(rt; bytes.as_slice(), TWO.as_slice());
    assert_eq!(rt; classes_size(&classes), 23);
    Ok(())
}

fn count_read(alloc: Global, bytes: &[u8], count: u64) -> Result<Option<usize>, Fail> {
    match read_classes(alloc, bytes, count)? {
        None => Ok(None),
        Some(classes) => Ok(Some(classes.len())),
    }
}

#[test]
fn so_many_classes_are_read_and_nothing_is_left(rt: HostRuntime) -> Result<(), Fail> {
    let alloc = rt.alloc();
    assert_eq!(rt; count_read(alloc, &TWO, 2)?, Some(2));
    assert_eq!(rt; count_read(alloc, &[], 0)?, Some(0));
    for count in [0, 1, 3, u64::MAX] {
        assert_eq!(rt; count_read(alloc, &TWO, count)?, None, "{count}");
    }
    for size in 0..23 {
        assert_eq!(rt; count_read(alloc, &TWO[..size], 2)?, None, "{size}");
    }
    Ok(())
}

#[test]
fn the_first_class_of_a_name_is_found(rt: HostRuntime) -> Result<(), Fail> {
    let alloc = rt.alloc();
    let mut classes = two(alloc)?;
    assert!(rt; are_distinct(alloc, &classes)?);
    classes.push(class(alloc, b"A", &[1])?)?;
    assert!(rt; !are_distinct(alloc, &classes)?);
    assert_eq!(rt; class_in(&classes, b"A"), Some([7, 8, 9].as_slice()));
    assert_eq!(rt; class_in(&classes, b"B"), None);
    one_archive();
    Ok(())
}

// A class `Main` of the first form.
const PUTS_42: [u8; 160] = [
    202, 254, 186, 190, 0, 0, 0, 52, 0, 12, 1, 0, 4, 77, 97, 105, 110, 7, 0, 1, 1, 0, 16, 106, 97,
    118, 97, 47, 108, 97, 110, 103, 47, 79, 98, 106, 101, 99, 116, 7, 0, 3, 1, 0, 4, 109, 97, 105,
    110, 1, 0, 22, 40, 91, 76, 106, 97, 118, 97, 47, 108, 97, 110, 103, 47, 83, 116, 114, 105, 110,
    103, 59, 41, 86, 1, 0, 4, 67, 111, 100, 101, 1, 0, 3, 112, 117, 116, 1, 0, 4, 40, 73, 41, 86,
    12, 0, 8, 0, 9, 10, 0, 2, 0, 10, 0, 33, 0, 2, 0, 4, 0, 0, 0, 0, 0, 2, 0, 9, 0, 5, 0, 6, 0, 1,
    0, 7, 0, 0, 0, 20, 0, 2, 0, 1, 0, 0, 0, 8, 16, 40, 5, 96, 184, 0, 11, 177, 0, 0, 0, 0, 1, 9, 0,
    8, 0, 9, 0, 0, 0, 0,
];

fn is_named(alloc: Global, name: &[u8], bytes: &[u8]) -> Result<bool, Fail> {
    let mut classes = Vec::new(alloc);
    classes.push(class(alloc, b"Main", &PUTS_42)?)?;
    classes.push(class(alloc, name, bytes)?)?;
    Ok(are_named(alloc, &classes)?)
}

#[test]
fn each_class_has_its_own_name_inside(rt: HostRuntime) -> Result<(), Fail> {
    let alloc = rt.alloc();
    assert!(rt; is_named(alloc, b"Main", &PUTS_42)?);
    assert!(rt; !is_named(alloc, b"main", &PUTS_42)?);
    assert!(rt; !is_named(alloc, b"Main", &PUTS_42[..159])?);
    Ok(())
}
