//! The throwables that the machine knows, and the faults of its classes.
ghost use Rattle.std.specs.Prelude.{◌≡◌};
ghost use Rattle.class_record.specs.FaultNames.{fault_name};
ghost use Rattle.class_record.specs.declared.fault.ClassesFault.TheVariants.{Memory};

use jsa_base::Quantity;
use std::alloc::AllocError;

/// How many classes one run may load.
pub const MAX_LOADED: u32 = 65_535;

/// A class of throwables that each boot library has, and that the machine throws by itself or knows as one of their
/// superclasses (JVMS 2.10, 5.3 to 5.5, 6.5).
#[derive(Clone, Copy, Debug, PartialEq, Eq)]
pub enum JavaFault {
    Throwable,
    Error,
    Exception,
    RuntimeException,
    LinkageError,
    NoClassDefFoundError,
    ClassFormatError,
    UnsupportedClassVersionError,
    ClassCircularityError,
    IncompatibleClassChangeError,
    AbstractMethodError,
    IllegalAccessError,
    InstantiationError,
    NoSuchFieldError,
    NoSuchMethodError,
    UnsatisfiedLinkError,
    VerifyError,
    ExceptionInInitializerError,
    VirtualMachineError,
    OutOfMemoryError,
    StackOverflowError,
    ArithmeticException,
    IndexOutOfBoundsException,
    ArrayIndexOutOfBoundsException,
    StringIndexOutOfBoundsException,
    ArrayStoreException,
    ClassCastException,
    NegativeArraySizeException,
    NullPointerException,
    IllegalMonitorStateException,
    CloneNotSupportedException,
}

impl JavaFault {
    /// The internal name of the class, as `java/lang/VerifyError`.
    pub fn name(self) -> &'static str
        ensures { result.now ≡ fault_name self }
    {
        match self {
            JavaFault::Throwable => "java/lang/Throwable",
            JavaFault::Error => "java/lang/Error",
            JavaFault::Exception => "java/lang/Exception",
            JavaFault::RuntimeException => "java/lang/RuntimeException",
            JavaFault::LinkageError => "java/lang/LinkageError",
            JavaFault::NoClassDefFoundError => "java/lang/NoClassDefFoundError",
            JavaFault::ClassFormatError => "java/lang/ClassFormatError",
            JavaFault::UnsupportedClassVersionError => "java/lang/UnsupportedClassVersionError",
            JavaFault::ClassCircularityError => "java/lang/ClassCircularityError",
            JavaFault::IncompatibleClassChangeError => "java/lang/IncompatibleClassChangeError",
            JavaFault::AbstractMethodError => "java/lang/AbstractMethodError",
            JavaFault::IllegalAccessError => "java/lang/IllegalAccessError",
            JavaFault::InstantiationError => "java/lang/InstantiationError",
            JavaFault::NoSuchFieldError => "java/lang/NoSuchFieldError",
            JavaFault::NoSuchMethodError => "java/lang/NoSuchMethodError",
            JavaFault::UnsatisfiedLinkError => "java/lang/UnsatisfiedLinkError",
            JavaFault::VerifyError => "java/lang/VerifyError",
            JavaFault::ExceptionInInitializerError => "java/lang/ExceptionInInitializerError",
            JavaFault::VirtualMachineError => "java/lang/VirtualMachineError",
            JavaFault::OutOfMemoryError => "java/lang/OutOfMemoryError",
            JavaFault::StackOverflowError => "java/lang/StackOverflowError",
            JavaFault::ArithmeticException => "java/lang/ArithmeticException",
            JavaFault::IndexOutOfBoundsException => "java/lang/IndexOutOfBoundsException",
            JavaFault::ArrayIndexOutOfBoundsException => "java/lang/ArrayIndexOutOfBoundsException",
            JavaFault::StringIndexOutOfBoundsException =>
                "java/lang/StringIndexOutOfBoundsException",
            JavaFault::ArrayStoreException => "java/lang/ArrayStoreException",
            JavaFault::ClassCastException => "java/lang/ClassCastException",
            JavaFault::NegativeArraySizeException => "java/lang/NegativeArraySizeException",
            JavaFault::NullPointerException => "java/lang/NullPointerException",
            JavaFault::IllegalMonitorStateException => "java/lang/IllegalMonitorStateException",
            JavaFault::CloneNotSupportedException => "java/lang/CloneNotSupportedException",
        }
    }
}

/// Why a call on the classes of a run gave no answer.
#[derive(Clone, Copy, Debug, PartialEq, Eq)]
pub enum ClassesFault {
    /// A read of a file failed.
    Read,
    /// A quantity would pass its limit, and the number is that limit: of the size of a class file 67,108,864 bytes, of the
    /// number of loaded classes 65,535.
    Limit(Quantity, u64),
    /// Memory ran out.
    Memory,
}

impl From<AllocError> for ClassesFault {
    ghost from_gives = { λ _ e. e ≡ Memory };

    fn from(_: AllocError) -> ClassesFault {
        ClassesFault::Memory
    }
}
