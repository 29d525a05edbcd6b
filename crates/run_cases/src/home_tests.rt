// Runs that end before the main class is loaded.
ghost use Rattle.std.specs.Prelude.{◌≤◌, IfOk};
ghost use Rattle.std.specs.Vec.{vec_len};

use command_words::HomeRun;
use home_run::{HomeEnd, run_home};
use jsa_base::Quantity;
use jsa_files::{Files, MAX_FILE, MemoryFiles, MemorySink};
use std::alloc::Global;
use std::process::Abort;
use std::test::Fail;

fn request(alloc: Global) -> Result<HomeRun, Fail>
    ensures { IfOk result (λ request. vec_len request.folders ≤ 64) }
{
    let mut folders = Vec::new(alloc);
    folders.push(String::from_str(alloc, "x")?)?;
    Ok(HomeRun {
        home: String::from_str(alloc, "h")?,
        folders,
        list: Some(String::from_str(alloc, "list")?),
        steps: 100,
        name: Vec::from_slice(alloc, b"Main")?,
    })
}

// How the run ends. Nothing is put, and no list is written.
fn end_over(rt: &impl Abort, alloc: Global, files: MemoryFiles) -> Result<HomeEnd, Fail> {
    let request = request(alloc)?;
    let mut out = MemorySink::new(alloc);
    let (end, mut files) = run_home(alloc, &request, files, &mut out);
    assert!(rt; out.bytes().is_empty());
    assert_eq!(rt; files.read(alloc, "list"), Ok(None));
    Ok(end)
}

// How the run over one file ends.
fn end_with(rt: &impl Abort, alloc: Global, path: &str, bytes: &[u8]) -> Result<HomeEnd, Fail> {
    let mut files = MemoryFiles::new(alloc);
    files.with(path, bytes)?;
    end_over(rt, alloc, files)
}

// The class java/lang/Object, up to the name of its method.
const FRONT: &[u8] =
    b"\xCA\xFE\xBA\xBE\0\0\0\x34\0\x06\x01\0\x10java/lang/Object\x07\0\x01\x01\0\x04Code\x01\0\x03()V\x01\0\x08";

// Its static method of type ()V, which returns.
const METHOD: &[u8] =
    b"\0\x01\0\x08\0\x05\0\x04\0\x01\0\x03\0\0\0\x0D\0\0\0\0\0\0\0\x01\xB1\0\0\0\0\0\0";

// The class java/lang/Object with this entry of its pool as its superclass, and with a method of this name of eight letters.
fn object(alloc: Global, sup: u8, method: &str) -> Result<Vec<u8>, Fail> {
    let mut bytes = Vec::from_slice(alloc, FRONT)?;
    bytes.extend_from_slice(method.as_bytes())?;
    bytes.extend_from_slice(&[0, 0x21, 0, 2, 0, sup, 0, 0, 0, 0])?;
    bytes.extend_from_slice(METHOD)?;
    Ok(bytes)
}

const OBJECT: &str = "h/boot/java/lang/Object.class";

#[test]
fn without_java_lang_object(rt: HostRuntime) -> Result<(), Fail> {
    let alloc = rt.alloc();
    let first = HomeEnd::NoBoot(1);
    assert_eq!(rt; end_over(&rt, alloc, MemoryFiles::new(alloc))?, first);
    assert_eq!(rt; end_with(&rt, alloc, OBJECT, b"no class")?, first);
    Ok(())
}

// What is asked of java/lang/Object, and where it is looked for.
#[test]
fn with_java_lang_object_alone(rt: HostRuntime) -> Result<(), Fail> {
    let alloc = rt.alloc();
    for (path, sup, method, number) in [
        (OBJECT, 0, "prepares", 2),
        (OBJECT, 0, "<clinit>", 1),
        (OBJECT, 2, "prepares", 1),
        ("h/java/lang/Object.class", 0, "prepares", 1),
        ("h/platform/java/lang/Object.class", 0, "prepares", 1),
        ("x/java/lang/Object.class", 0, "prepares", 1),
    ] {
        let bytes = object(alloc, sup, method)?;
        let end = end_with(&rt, alloc, path, bytes.as_slice())?;
        assert_eq!(rt; end, HomeEnd::NoBoot(number), "{path} {sup} {method}");
    }
    Ok(())
}

#[test]
fn a_read_that_fails(rt: HostRuntime) -> Result<(), Fail> {
    let alloc = rt.alloc();
    for call in [1, 2] {
        let mut files = MemoryFiles::new(alloc);
        files.with(OBJECT, object(alloc, 0, "prepares")?.as_slice())?;
        files.fail(call, 0)?;
        assert_eq!(rt; end_over(&rt, alloc, files)?, HomeEnd::Read);
    }
    Ok(())
}

#[test]
fn a_class_file_that_is_too_large(rt: HostRuntime) -> Result<(), Fail> {
    let large = vec![in rt.alloc(); 0u8; MAX_FILE + 1]?;
    let end = end_with(&rt, rt.alloc(), OBJECT, &large)?;
    assert_eq!(rt; end, HomeEnd::Limit(Quantity::FileSize, MAX_FILE as u64));
    Ok(())
}
