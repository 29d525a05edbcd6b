//! The record of a class: what an archive holds of it, by names.
use class_tree::Handler;
use loader_rules::Loader;
use sqlite_items::Items;
use verify_rules::Ask;

/// A class as it is laid out, with names in place of the classes, fields and methods that it refers to.
#[derive(Drop)]
pub struct ClassRecord {
    /// Its internal name (JVMS 4.2.1).
    pub name: Items<u8>,
    /// The access flags, as written (JVMS 4.1).
    pub flags: u16,
    /// The loader that defines it.
    pub loader: Loader,
    /// The major version of its class file.
    pub major: u16,
    /// Its superclass, which java/lang/Object alone doesn't have.
    pub sup: Option<Items<u8>>,
    /// Its direct superinterfaces, in their order.
    pub interfaces: Items<Items<u8>>,
    /// The constant pool, from index 0 on.
    pub pool: Items<PoolName>,
    /// The fields that it declares, in their order.
    pub fields: Items<FieldRecord>,
    /// The methods that it declares, in their order.
    pub methods: Items<MethodRecord>,
    /// The methods that its instances' calls come to.
    pub tables: Tables,
    /// The questions that its verification asked, in their order.
    pub asks: Items<Ask>,
    /// How many instance fields an object of it has, those of its superclasses among them.
    pub instance_size: u32,
    /// How many static fields it declares.
    pub static_size: u32,
    /// The number of the folder that its file is in: 0 for the boot folder, 1 for the platform folder, and those from 2 on
    /// for the application folders.
    pub folder: u32,
}

/// An entry of a constant pool (JVMS 4.4) with its texts. A `u16` is an index of the pool, unless its line says otherwise.
#[derive(Drop)]
pub enum PoolName {
    /// Nothing: the place of index 0, and of the second index of a Long or a Double.
    Unusable,
    /// A text in modified UTF-8.
    Utf8(Items<u8>),
    /// The bits of a number, as those of the next three.
    Integer(u32),
    Float(u32),
    Long(u64),
    Double(u64),
    /// The name of a class or an interface, or the descriptor of an array.
    Class(Items<u8>),
    /// The text of a string.
    Str(Items<u8>),
    /// The class and the NameAndType of a field, of a method, of an interface's method.
    Fieldref(u16, u16),
    Methodref(u16, u16),
    InterfaceMethodref(u16, u16),
    /// The name and the descriptor of a field or a method.
    NameAndType(Items<u8>, Items<u8>),
    /// The kind of a handle, and the member that it refers to.
    MethodHandle(u8, u16),
    /// The descriptor of a method.
    MethodType(Items<u8>),
    /// The place of a bootstrap method in its table, and the NameAndType of the call.
    InvokeDynamic(u16, u16),
}

/// A field (JVMS 4.5).
#[derive(Debug, Drop)]
pub struct FieldRecord {
    pub name: Items<u8>,
    pub desc: Items<u8>,
    /// The access flags, as written.
    pub flags: u16,
    /// Where it stands among the static fields of its class, from 0 on, or among the instance fields of an object, those of
    /// the superclasses first.
    pub slot: u32,
    /// The index of the constant that its ConstantValue names, or 0 for none (JVMS 4.7.2).
    pub value: u16,
}

/// A method (JVMS 4.6).
#[derive(Debug, Drop)]
pub struct MethodRecord {
    pub name: Items<u8>,
    pub desc: Items<u8>,
    /// The access flags, as written.
    pub flags: u16,
    /// Its code, where it has any.
    pub code: Option<CodeRecord>,
}

/// The code of a method (JVMS 4.7.3).
#[derive(Debug, Drop)]
pub struct CodeRecord {
    /// The greatest depth of the operand stack, a long or a double counting two.
    pub stack: u16,
    /// The number of local variables, a long or a double taking two.
    pub locals: u16,
    /// The instructions.
    pub bytes: Items<u8>,
    /// The rows of the exception table, in their order.
    pub handlers: Items<Handler>,
}

/// A method by the class that declares it, its name and its descriptor.
#[derive(Debug, Drop)]
pub struct Named {
    pub class: Items<u8>,
    pub name: Items<u8>,
    pub desc: Items<u8>,
}

/// The methods that calls through one superinterface come to.
#[derive(Debug, Drop)]
pub struct ItableRecord {
    /// The internal name of the interface.
    pub interface: Items<u8>,
    /// For each of its methods that is neither static nor private, in their order, the method that is selected. `None` where
    /// several would be.
    pub methods: Items<Option<Named>>,
}

/// The methods that calls on an object of a class come to (JVMS 5.4.5).
#[derive(Debug, Drop)]
pub struct Tables {
    /// The virtual list: the slots of the superclass, then one for each method that the class itself declares which is
    /// neither static, private nor `<init>`.
    pub slots: Items<Named>,
    /// One for each superinterface, an interface's superinterfaces before it and those of the superclass first.
    pub itables: Items<ItableRecord>,
}
