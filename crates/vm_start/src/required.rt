//! The required classes.
ghost use Rattle.std.specs.Prelude.{◌≡◌, ◌<◌, ◌≤◌, Some};
ghost use Rattle.std.specs.Option.{option_map};
ghost use Rattle.class_record.specs.Required as asked;
ghost use Rattle.class_record.specs.Starting as spec;
ghost use Rattle.vm_start.specs.Table.{row_of, extending, numbered};
ghost use Rattle.vm_start.specs.Table as table;

/// An instance field (JVMS 4.5) that a class has to declare.
#[derive(Clone, Copy)]
pub(crate) struct WantedField {
    pub name: &'static str,
    pub desc: &'static str,
}

/// What is asked of a class: its superclass, its direct superinterfaces, whether it is an interface (JVMS 4.1), and its field.
#[derive(Clone, Copy)]
pub(crate) struct Row {
    pub name: &'static str,
    pub sup: Option<&'static str>,
    pub interfaces: &'static [&'static str],
    pub is_interface: bool,
    pub field: Option<WantedField>,
}

fn interface_named(name: &'static str) -> Row
    ensures { row_of result ≡ asked.interface_named name.now }
{
    Row {
        name,
        sup: Some("java/lang/Object"),
        interfaces: &[],
        is_interface: true,
        field: None,
    }
}

// Both are whole names.
fn extends(name: &'static str, sup: &'static str) -> Row
    ensures { row_of result ≡ extending name.now sup.now }
{
    Row {
        name,
        sup: Some(sup),
        interfaces: &[],
        is_interface: false,
        field: None,
    }
}

fn object_class() -> Row
    ensures { row_of result ≡ asked.object_class }
{
    Row {
        name: "java/lang/Object",
        sup: None,
        interfaces: &[],
        is_interface: false,
        field: None,
    }
}

fn string_class() -> Row
    ensures { row_of result ≡ asked.string_class }
{
    Row {
        name: "java/lang/String",
        sup: Some("java/lang/Object"),
        interfaces: &[
            "java/io/Serializable",
            "java/lang/Comparable",
            "java/lang/CharSequence",
        ],
        is_interface: false,
        field: Some(WantedField {
            name: "value",
            desc: "[C",
        }),
    }
}

fn throwable_class() -> Row
    ensures { row_of result ≡ asked.throwable_class }
{
    Row {
        name: "java/lang/Throwable",
        sup: Some("java/lang/Object"),
        interfaces: &["java/io/Serializable"],
        is_interface: false,
        field: Some(WantedField {
            name: "cause",
            desc: "Ljava/lang/Throwable;",
        }),
    }
}

/// The superclasses of the classes from 9 on, all of them of `java.lang`.
#[derive(Clone, Copy)]
pub(crate) enum Above {
    Throwable,
    Exception,
    Error,
    LinkageError,
    ClassFormatError,
    IncompatibleClassChangeError,
    VirtualMachineError,
    RuntimeException,
    IndexOutOfBoundsException,
}

fn above_name(above: Above) -> &'static str
    ensures { result.now ≡ table.above_name above }
{
    match above {
        Above::Throwable => "java/lang/Throwable",
        Above::Exception => "java/lang/Exception",
        Above::Error => "java/lang/Error",
        Above::LinkageError => "java/lang/LinkageError",
        Above::ClassFormatError => "java/lang/ClassFormatError",
        Above::IncompatibleClassChangeError => "java/lang/IncompatibleClassChangeError",
        Above::VirtualMachineError => "java/lang/VirtualMachineError",
        Above::RuntimeException => "java/lang/RuntimeException",
        Above::IndexOutOfBoundsException => "java/lang/IndexOutOfBoundsException",
    }
}

// The name of a class from 9 to 23, and its superclass.
fn first_names(number: u32) -> (&'static str, Above)
    ensures { 9 ≤ number → number < 24 → Some (extending result.0.now (table.above_name result.1)) ≡ numbered number }
{
    match number {
        0..=8 => ("", Above::Error),
        9 => ("java/lang/Error", Above::Throwable),
        10 => ("java/lang/Exception", Above::Throwable),
        11 => ("java/lang/RuntimeException", Above::Exception),
        12 => ("java/lang/LinkageError", Above::Error),
        13 => ("java/lang/NoClassDefFoundError", Above::LinkageError),
        14 => ("java/lang/ClassFormatError", Above::LinkageError),
        15 => (
            "java/lang/UnsupportedClassVersionError",
            Above::ClassFormatError,
        ),
        16 => ("java/lang/ClassCircularityError", Above::LinkageError),
        17 => (
            "java/lang/IncompatibleClassChangeError",
            Above::LinkageError,
        ),
        18 => (
            "java/lang/AbstractMethodError",
            Above::IncompatibleClassChangeError,
        ),
        19 => (
            "java/lang/IllegalAccessError",
            Above::IncompatibleClassChangeError,
        ),
        20 => (
            "java/lang/InstantiationError",
            Above::IncompatibleClassChangeError,
        ),
        21 => (
            "java/lang/NoSuchFieldError",
            Above::IncompatibleClassChangeError,
        ),
        22 => (
            "java/lang/NoSuchMethodError",
            Above::IncompatibleClassChangeError,
        ),
        23 => ("java/lang/UnsatisfiedLinkError", Above::LinkageError),
        24.. => ("", Above::Error),
    }
}

// The name of a class from 24 to 38, and its superclass.
fn later_names(number: u32) -> (&'static str, Above)
    ensures { 24 ≤ number → number < 39 → Some (extending result.0.now (table.above_name result.1)) ≡ numbered number }
{
    match number {
        0..=23 => ("", Above::Error),
        24 => ("java/lang/VerifyError", Above::LinkageError),
        25 => ("java/lang/ExceptionInInitializerError", Above::LinkageError),
        26 => ("java/lang/VirtualMachineError", Above::Error),
        27 => ("java/lang/OutOfMemoryError", Above::VirtualMachineError),
        28 => ("java/lang/StackOverflowError", Above::VirtualMachineError),
        29 => ("java/lang/ArithmeticException", Above::RuntimeException),
        30 => (
            "java/lang/IndexOutOfBoundsException",
            Above::RuntimeException,
        ),
        31 => (
            "java/lang/ArrayIndexOutOfBoundsException",
            Above::IndexOutOfBoundsException,
        ),
        32 => (
            "java/lang/StringIndexOutOfBoundsException",
            Above::IndexOutOfBoundsException,
        ),
        33 => ("java/lang/ArrayStoreException", Above::RuntimeException),
        34 => ("java/lang/ClassCastException", Above::RuntimeException),
        35 => (
            "java/lang/NegativeArraySizeException",
            Above::RuntimeException,
        ),
        36 => ("java/lang/NullPointerException", Above::RuntimeException),
        37 => (
            "java/lang/IllegalMonitorStateException",
            Above::RuntimeException,
        ),
        38 => ("java/lang/CloneNotSupportedException", Above::Exception),
        39.. => ("", Above::Error),
    }
}

// A class from 9 to 38.
fn throwable_named(number: u32) -> Row
    ensures { 9 ≤ number → number < 39 → Some (row_of result) ≡ numbered number }
{
    let (name, above) = if number < 24 {
        first_names(number)
    } else {
        later_names(number)
    };
    extends(name, above_name(above))
}

/// The class with this number, from 1 on.
pub(crate) fn required(number: u32) -> Option<Row>
    ensures { option_map row_of result ≡ numbered number }
{
    match number {
        0 => None,
        1 => Some(object_class()),
        2 => Some(interface_named("java/io/Serializable")),
        3 => Some(interface_named("java/lang/Cloneable")),
        4 => Some(interface_named("java/lang/Comparable")),
        5 => Some(interface_named("java/lang/CharSequence")),
        6 => Some(string_class()),
        7 => Some(extends("java/lang/Class", "java/lang/Object")),
        8 => Some(throwable_class()),
        9..=38 => Some(throwable_named(number)),
        39.. => None,
    }
}

/// The name of the class with this number, from 1 on, of those that every run begins with; an empty one where there is none.
pub fn required_name(number: u32) -> &'static [u8]
    ensures { result.now ≡ spec.required_name number }
{
    match required(number) {
        None => b"",
        Some(row) => row.name.as_bytes(),
    }
}
