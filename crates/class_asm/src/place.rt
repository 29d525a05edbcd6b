//! Where a text is, line by line.
ghost use Rattle.std.specs.Prelude.{◌≡◌, ◌++◌, ◌∷◌, [], Some};
ghost use Rattle.asm_text.specs.Outcome.{Gives, Yields, Does};
ghost use Rattle.class_asm.specs.Assembly as spec;
ghost use Rattle.class_asm.specs.Drafts.{tree_of};

use crate::class_draft::{ClassDraft, begin_class, leave_class};
use crate::code_draft::{
    CodeDraft, MethodDraft, begin_code, begin_method, close_method, end_code, leave_code,
    leave_method,
};
use crate::labels::labels_of;
use asm_text::{
    CatchLine, ClassLine, CodeLine, FieldLine, FrameLine, LineFault, MethodLine, Operation,
    Statement,
};
use class_tree::ClassTree;
use sqlite_items::Items;
use std::alloc::Global;

/// Where a text is.
#[derive(Drop)]
pub enum Place {
    /// Before its first class.
    Start,
    /// Right behind a class line.
    Header(ClassDraft),
    /// Among the members of a class.
    Members(ClassDraft),
    /// Right behind a method line.
    Method(MethodDraft),
    /// Among the lines of a code.
    Code(CodeDraft),
}

/// Lets go of a place, and hands on a fault.
pub fn leave(place: Place, fault: LineFault) -> LineFault
    ensures { result ≡ fault }
{
    match place {
        Place::Start => fault,
        Place::Header(class) => leave_class(class, fault),
        Place::Members(class) => leave_class(class, fault),
        Place::Method(method) => leave_method(method, fault),
        Place::Code(code) => leave_code(code, fault),
    }
}

fn push_tree(trees: &mut Vec<ClassTree>, class: ClassDraft) -> Result<(), LineFault>
    ensures { Does result trees.new.items (Some (trees.old.items ++ tree_of class ∷ [])) }
{
    trees.push(class.into_tree())?;
    Ok(())
}

/// Puts the tree of the class at hand, if there is one, behind the others. `Outside` comes where a code is open.
pub fn finish(trees: &mut Vec<ClassTree>, place: Place) -> Result<(), LineFault>
    ensures { Does result trees.new.items (spec.finished trees.old.items place) }
{
    match place {
        Place::Start => Ok(()),
        Place::Header(class) => push_tree(trees, class),
        Place::Members(class) => push_tree(trees, class),
        Place::Method(method) => push_tree(trees, close_method(method, None)?),
        Place::Code(code) => Err(leave_code(code, LineFault::Outside)),
    }
}

fn class_of(place: Place) -> Result<ClassDraft, LineFault>
    ensures { Yields (λ c. c) result (spec.in_class place) }
{
    match place {
        Place::Header(class) => Ok(class),
        Place::Members(class) => Ok(class),
        Place::Method(method) => Ok(close_method(method, None)?),
        Place::Start => Err(LineFault::Outside),
        Place::Code(code) => Err(leave_code(code, LineFault::Outside)),
    }
}

fn header_of(place: Place) -> Result<ClassDraft, LineFault>
    ensures { Yields (λ c. c) result (spec.in_header place) }
{
    match place {
        Place::Header(class) => Ok(class),
        Place::Start => Err(LineFault::Outside),
        Place::Members(class) => Err(leave_class(class, LineFault::Outside)),
        Place::Method(method) => Err(leave_method(method, LineFault::Outside)),
        Place::Code(code) => Err(leave_code(code, LineFault::Outside)),
    }
}

fn method_of(place: Place) -> Result<MethodDraft, LineFault>
    ensures { Yields (λ m. m) result (spec.in_method place) }
{
    match place {
        Place::Method(method) => Ok(method),
        Place::Start => Err(LineFault::Outside),
        Place::Header(class) => Err(leave_class(class, LineFault::Outside)),
        Place::Members(class) => Err(leave_class(class, LineFault::Outside)),
        Place::Code(code) => Err(leave_code(code, LineFault::Outside)),
    }
}

fn code_of(place: Place) -> Result<CodeDraft, LineFault>
    ensures { Yields (λ c. c) result (spec.in_code place) }
{
    match place {
        Place::Code(code) => Ok(code),
        Place::Start => Err(LineFault::Outside),
        Place::Header(class) => Err(leave_class(class, LineFault::Outside)),
        Place::Members(class) => Err(leave_class(class, LineFault::Outside)),
        Place::Method(method) => Err(leave_method(method, LineFault::Outside)),
    }
}

fn class_line(
    alloc: Global,
    line: &ClassLine,
    place: Place,
    trees: &mut Vec<ClassTree>,
) -> Result<Place, LineFault>
    ensures { Gives (λ p. p) result trees.new.items (spec.after_class line.now place trees.old.items) }
{
    finish(trees, place)?;
    let class = begin_class(alloc, line)?;
    Ok(Place::Header(class))
}

fn version_line(major: u16, place: Place) -> Result<Place, LineFault>
    ensures { Yields (λ p. p) result (spec.after_version major place) }
{
    let mut class = header_of(place)?;
    class.major = major;
    Ok(Place::Members(class))
}

fn field_line(alloc: Global, line: &FieldLine, place: Place) -> Result<Place, LineFault>
    ensures { Yields (λ p. p) result (spec.after_field line.now place) }
{
    let mut class = class_of(place)?;
    match class.add_field(alloc, line) {
        Ok(()) => Ok(Place::Members(class)),
        Err(fault) => Err(leave_class(class, fault)),
    }
}

fn method_line(alloc: Global, line: &MethodLine, place: Place) -> Result<Place, LineFault>
    ensures { Yields (λ p. p) result (spec.after_method line.now place) }
{
    let class = class_of(place)?;
    let method = begin_method(alloc, line, class)?;
    Ok(Place::Method(method))
}

fn code_line(
    alloc: Global,
    rest: &[Option<Statement>],
    line: &CodeLine,
    place: Place,
) -> Result<Place, LineFault>
    ensures { Yields (λ p. p) result (spec.after_code rest.now line.now place) }
{
    let method = method_of(place)?;
    match labels_of(alloc, rest) {
        Ok(labels) => Ok(Place::Code(begin_code(alloc, line, labels, method)?)),
        Err(fault) => Err(leave_method(method, fault)),
    }
}

fn label_line(name: &Items<u8>, place: Place) -> Result<Place, LineFault>
    ensures { Yields (λ p. p) result (spec.after_label name.now place) }
{
    let mut code = code_of(place)?;
    match code.pass_label(name) {
        Ok(()) => Ok(Place::Code(code)),
        Err(fault) => Err(leave_code(code, fault)),
    }
}

fn operation_line(alloc: Global, operation: &Operation, place: Place) -> Result<Place, LineFault>
    ensures { Yields (λ p. p) result (spec.after_operation operation.now place) }
{
    let mut code = code_of(place)?;
    match code.add_operation(alloc, operation) {
        Ok(()) => Ok(Place::Code(code)),
        Err(fault) => Err(leave_code(code, fault)),
    }
}

fn catch_line(alloc: Global, line: &CatchLine, place: Place) -> Result<Place, LineFault>
    ensures { Yields (λ p. p) result (spec.after_catch line.now place) }
{
    let mut code = code_of(place)?;
    match code.add_handler(alloc, line) {
        Ok(()) => Ok(Place::Code(code)),
        Err(fault) => Err(leave_code(code, fault)),
    }
}

fn frame_line(alloc: Global, line: &FrameLine, place: Place) -> Result<Place, LineFault>
    ensures { Yields (λ p. p) result (spec.after_frame line.now place) }
{
    let mut code = code_of(place)?;
    match code.add_frame(alloc, line) {
        Ok(()) => Ok(Place::Code(code)),
        Err(fault) => Err(leave_code(code, fault)),
    }
}

fn end_line(alloc: Global, place: Place) -> Result<Place, LineFault>
    ensures { Yields (λ p. p) result (spec.after_end place) }
{
    let code = code_of(place)?;
    let class = end_code(alloc, code)?;
    Ok(Place::Members(class))
}

/// Where the text is behind a statement, with the lines that follow. A class that ends there goes to the trees. `Outside`
/// comes where the statement may not stand there, or can't be done.
pub fn step(
    alloc: Global,
    rest: &[Option<Statement>],
    statement: &Statement,
    place: Place,
    trees: &mut Vec<ClassTree>,
) -> Result<Place, LineFault>
    ensures { Gives (λ p. p) result trees.new.items (spec.next rest.now statement.now place trees.old.items) }
{
    match statement {
        Statement::Blank => Ok(place),
        Statement::Class(line) => class_line(alloc, line, place, trees),
        Statement::Version(major) => version_line(*major, place),
        Statement::Field(line) => field_line(alloc, line, place),
        Statement::Method(line) => method_line(alloc, line, place),
        Statement::Code(line) => code_line(alloc, rest, line, place),
        Statement::Label(name) => label_line(name, place),
        Statement::Operation(operation) => operation_line(alloc, operation, place),
        Statement::Catch(line) => catch_line(alloc, line, place),
        Statement::Frame(line) => frame_line(alloc, line, place),
        Statement::End => end_line(alloc, place),
    }
}
