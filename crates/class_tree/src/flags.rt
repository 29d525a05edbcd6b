//! The access flags of classes, fields and methods, by their names, and which may stand together (JVMS 4.1, 4.5, 4.6).
ghost use Rattle.std.specs.Prelude.{◌≡◌};
ghost use Rattle.class_tree.specs.Flags.{has, is_public, is_private, is_protected, is_static, is_final, is_synchronized, is_volatile, is_native, is_interface, is_abstract, is_strict, is_annotation, has_one_access, are_class_flags, are_field_flags, suits_abstract, suits_interface, are_method_flags, are_init_flags};

// ---- their bits

/// Of a class, a field or a method: it may be accessed from outside its package.
pub const ACC_PUBLIC: u16 = 0x0001;
/// Of a field or a method: it is accessible only within the class that declares it.
pub const ACC_PRIVATE: u16 = 0x0002;
/// Of a field or a method: it may be accessed within subclasses.
pub const ACC_PROTECTED: u16 = 0x0004;
/// Of a field or a method: it is one of the class, not of an object.
pub const ACC_STATIC: u16 = 0x0008;
/// A class that has no subclasses, a field that isn't assigned again, a method that isn't overridden.
pub const ACC_FINAL: u16 = 0x0010;
/// Of a class: its `invokespecial` treats methods of its superclass specially.
pub const ACC_SUPER: u16 = 0x0020;
/// Of a method: it is wrapped by the use of a monitor.
pub const ACC_SYNCHRONIZED: u16 = 0x0020;
/// Of a field: it can't be cached.
pub const ACC_VOLATILE: u16 = 0x0040;
/// Of a method: it is implemented in another language than Java.
pub const ACC_NATIVE: u16 = 0x0100;
/// It is an interface, not a class.
pub const ACC_INTERFACE: u16 = 0x0200;
/// A class that isn't instantiated, a method that has no code.
pub const ACC_ABSTRACT: u16 = 0x0400;
/// Of a method: its floating-point mode is FP-strict.
pub const ACC_STRICT: u16 = 0x0800;
/// Of a class: it is an annotation type.
pub const ACC_ANNOTATION: u16 = 0x2000;

// ---- whether one is set

// Whether the flag with this bit is set.
fn has_flag(flags: u16, bit: u16) -> bool
    ensures { result ≡ has flags bit }
{
    flags & bit != 0
}

/// Whether `ACC_PUBLIC` is set.
pub fn is_public(flags: u16) -> bool
    ensures { result ≡ is_public flags }
{
    has_flag(flags, ACC_PUBLIC)
}

/// Whether `ACC_PRIVATE` is set.
pub fn is_private(flags: u16) -> bool
    ensures { result ≡ is_private flags }
{
    has_flag(flags, ACC_PRIVATE)
}

/// Whether `ACC_PROTECTED` is set.
pub fn is_protected(flags: u16) -> bool
    ensures { result ≡ is_protected flags }
{
    has_flag(flags, ACC_PROTECTED)
}

/// Whether `ACC_STATIC` is set.
pub fn is_static(flags: u16) -> bool
    ensures { result ≡ is_static flags }
{
    has_flag(flags, ACC_STATIC)
}

/// Whether `ACC_FINAL` is set.
pub fn is_final(flags: u16) -> bool
    ensures { result ≡ is_final flags }
{
    has_flag(flags, ACC_FINAL)
}

/// Whether `ACC_SYNCHRONIZED` is set, of a method's flags.
pub fn is_synchronized(flags: u16) -> bool
    ensures { result ≡ is_synchronized flags }
{
    has_flag(flags, ACC_SYNCHRONIZED)
}

/// Whether `ACC_VOLATILE` is set, of a field's flags.
pub fn is_volatile(flags: u16) -> bool
    ensures { result ≡ is_volatile flags }
{
    has_flag(flags, ACC_VOLATILE)
}

/// Whether `ACC_NATIVE` is set.
pub fn is_native(flags: u16) -> bool
    ensures { result ≡ is_native flags }
{
    has_flag(flags, ACC_NATIVE)
}

/// Whether `ACC_INTERFACE` is set.
pub fn is_interface(flags: u16) -> bool
    ensures { result ≡ is_interface flags }
{
    has_flag(flags, ACC_INTERFACE)
}

/// Whether `ACC_ABSTRACT` is set.
pub fn is_abstract(flags: u16) -> bool
    ensures { result ≡ is_abstract flags }
{
    has_flag(flags, ACC_ABSTRACT)
}

fn is_strict(flags: u16) -> bool
    ensures { result ≡ is_strict flags }
{
    has_flag(flags, ACC_STRICT)
}

fn is_annotation(flags: u16) -> bool
    ensures { result ≡ is_annotation flags }
{
    has_flag(flags, ACC_ANNOTATION)
}

// ---- which may stand together

fn has_one_access(flags: u16) -> bool
    ensures { result ≡ has_one_access flags }
{
    !(is_public(flags) && is_private(flags))
        && !(is_public(flags) && is_protected(flags))
        && !(is_private(flags) && is_protected(flags))
}

#[tactic(auto, unfolding(crate::specs::Flags::are_class_flags))]
pub(crate) fn are_class_flags(flags: u16) -> bool
    ensures { result ≡ are_class_flags flags }
{
    if is_interface(flags) {
        is_abstract(flags) && !is_final(flags)
    } else {
        !(is_final(flags) && is_abstract(flags)) && !is_annotation(flags)
    }
}

#[tactic(auto, unfolding(crate::specs::Flags::are_field_flags))]
pub(crate) fn are_field_flags(in_interface: bool, flags: u16) -> bool
    ensures { result ≡ are_field_flags in_interface flags }
{
    has_one_access(flags)
        && !(is_final(flags) && is_volatile(flags))
        && (!in_interface || (is_public(flags) && is_static(flags) && is_final(flags)))
}

fn suits_abstract(flags: u16) -> bool
    ensures { result ≡ suits_abstract flags }
{
    !is_abstract(flags)
        || (!is_private(flags)
            && !is_static(flags)
            && !is_final(flags)
            && !is_synchronized(flags)
            && !is_native(flags)
            && !is_strict(flags))
}

fn suits_interface(major: u16, flags: u16) -> bool
    ensures { result ≡ suits_interface major flags }
{
    if major == 52 {
        (is_public(flags) || is_private(flags))
            && !is_protected(flags)
            && !is_final(flags)
            && !is_synchronized(flags)
            && !is_native(flags)
    } else {
        is_public(flags) && is_abstract(flags)
    }
}

#[tactic(auto, unfolding(crate::specs::Flags::are_method_flags))]
pub(crate) fn are_method_flags(major: u16, in_interface: bool, flags: u16) -> bool
    ensures { result ≡ are_method_flags major in_interface flags }
{
    has_one_access(flags)
        && suits_abstract(flags)
        && (!in_interface || suits_interface(major, flags))
}

pub(crate) fn are_init_flags(flags: u16) -> bool
    ensures { result ≡ are_init_flags flags }
{
    !is_static(flags)
        && !is_final(flags)
        && !is_synchronized(flags)
        && !is_native(flags)
        && !is_abstract(flags)
}
