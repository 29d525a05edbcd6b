// What the answers say, and the calls that look at what a store holds.
use jsa_files::{Files, MemoryFiles};
use std::alloc::{AllocError, Global};
use test_rows::{first_word, say_number};

// The paths of the first classes of a home h, in the order of their loading.
static REQUIRED: &str = "\
h/boot/java/lang/Object.class
h/boot/java/io/Serializable.class
h/boot/java/lang/Cloneable.class
h/boot/java/lang/Comparable.class
h/boot/java/lang/CharSequence.class
h/boot/java/lang/String.class
h/boot/java/lang/Class.class
h/boot/java/lang/Throwable.class
h/boot/java/lang/Error.class
h/boot/java/lang/Exception.class
h/boot/java/lang/RuntimeException.class
h/boot/java/lang/LinkageError.class
h/boot/java/lang/NoClassDefFoundError.class
h/boot/java/lang/ClassFormatError.class
h/boot/java/lang/UnsupportedClassVersionError.class
h/boot/java/lang/ClassCircularityError.class
h/boot/java/lang/IncompatibleClassChangeError.class
h/boot/java/lang/AbstractMethodError.class
h/boot/java/lang/IllegalAccessError.class
h/boot/java/lang/InstantiationError.class
h/boot/java/lang/NoSuchFieldError.class
h/boot/java/lang/NoSuchMethodError.class
h/boot/java/lang/UnsatisfiedLinkError.class
h/boot/java/lang/VerifyError.class
h/boot/java/lang/ExceptionInInitializerError.class
h/boot/java/lang/VirtualMachineError.class
h/boot/java/lang/OutOfMemoryError.class
h/boot/java/lang/StackOverflowError.class
h/boot/java/lang/ArithmeticException.class
h/boot/java/lang/IndexOutOfBoundsException.class
h/boot/java/lang/ArrayIndexOutOfBoundsException.class
h/boot/java/lang/StringIndexOutOfBoundsException.class
h/boot/java/lang/ArrayStoreException.class
h/boot/java/lang/ClassCastException.class
h/boot/java/lang/NegativeArraySizeException.class
h/boot/java/lang/NullPointerException.class
h/boot/java/lang/IllegalMonitorStateException.class
h/boot/java/lang/CloneNotSupportedException.class";

pub(crate) fn say_bytes(bytes: &[u8], said: &mut String) -> Result<(), AllocError> {
    for byte in bytes {
        said.push(match *byte {
            b'\n' => '~',
            b'\r' => '^',
            other => char::from(other),
        })?;
    }
    Ok(())
}

// The number of a path among those of the required classes, and 0 for another.
fn number_of(path: &str) -> u64 {
    let mut number = 0u64;
    for required in REQUIRED.lines() {
        number = number.saturating_add(1);
        if required == path {
            return number;
        }
    }
    0
}

// Says a path, that of a required class by its number.
fn say_path(alloc: Global, path: &str, said: &mut String) -> Result<(), AllocError> {
    match number_of(path) {
        0 => said.push_str(path),
        number => say_number(alloc, number, said),
    }
}

fn say_paths(alloc: Global, paths: &[String], said: &mut String) -> Result<(), AllocError> {
    for path in paths {
        said.push_str(" ")?;
        say_path(alloc, path.as_str(), said)?;
    }
    Ok(())
}

// Says the paths whose bytes were handed out.
pub(crate) fn say_reads(
    alloc: Global,
    files: &MemoryFiles,
    said: &mut String,
) -> Result<(), AllocError> {
    said.push_str("read")?;
    say_paths(alloc, files.reads(), said)
}

fn say_size(
    alloc: Global,
    files: &mut MemoryFiles,
    path: &str,
    said: &mut String,
) -> Result<(), AllocError> {
    match files.read(alloc, path) {
        Ok(Some(bytes)) => say_number(alloc, bytes.len() as u64, said),
        _ => said.push_str("none"),
    }
}

fn say_file(
    alloc: Global,
    files: &mut MemoryFiles,
    path: &str,
    said: &mut String,
) -> Result<(), AllocError> {
    match files.read(alloc, path) {
        Ok(Some(bytes)) => say_bytes(bytes.as_slice(), said),
        _ => said.push_str("none"),
    }
}

fn bytes_at(alloc: Global, files: &mut MemoryFiles, path: &str) -> Vec<u8> {
    match files.read(alloc, path) {
        Ok(Some(bytes)) => bytes,
        _ => Vec::new(alloc),
    }
}

// Whether two paths hold the same bytes, of which there is one at least.
fn same_word(alloc: Global, files: &mut MemoryFiles, path: &str, other: &str) -> &'static str {
    let bytes = bytes_at(alloc, files, path);
    let others = bytes_at(alloc, files, other);
    if bytes.len() > 0 && bytes.as_slice() == others.as_slice() {
        "yes"
    } else {
        "no"
    }
}

fn say_count(
    alloc: Global,
    files: &mut MemoryFiles,
    folder: &str,
    said: &mut String,
) -> Result<(), AllocError> {
    match files.list(alloc, folder) {
        Ok(names) => say_number(alloc, u64::from(names.len()), said),
        Err(_) => said.push_str("not listed"),
    }
}

pub(crate) fn look(
    alloc: Global,
    files: &mut MemoryFiles,
    verb: &str,
    words: &str,
    said: &mut String,
) -> Result<(), AllocError> {
    let (path, other) = first_word(words);
    match verb {
        "size" => say_size(alloc, files, path, said),
        "file" => say_file(alloc, files, path, said),
        "count" => say_count(alloc, files, path, said),
        _ => said.push_str(same_word(alloc, files, path, other)),
    }
}
