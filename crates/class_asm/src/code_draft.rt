//! A method and its code as far as their lines were read.
ghost use Rattle.std.specs.Prelude.{◌≡◌, ◌<◌, ◌^◌, min, IfOk, Some};
ghost use Rattle.std.specs.Option.{option_map};
ghost use Rattle.asm_text.specs.Outcome.{Gives, Yields, Does};
ghost use Rattle.class_asm.specs.Drafts as spec;

use crate::class_draft::{ClassDraft, leave_class, optional_class};
use crate::frames::{delta, frame_text, short_place};
use crate::labels::Labels;
use crate::needs::utf8_index;
use crate::resolving::emit;
use asm_text::{CatchLine, CodeLine, FrameLine, LineFault, MethodLine, Operation};
use class_tree::{CodeTree, Handler, MethodTree};
use jsa_base::put_u2;
use pool_builder::PoolBuilder;
use sqlite_items::Items;
use std::alloc::{AllocError, Global};

/// A method behind its method line.
#[derive(Drop)]
pub struct MethodDraft {
    pub class: ClassDraft,
    pub flags: u16,
    pub name: u16,
    pub desc: u16,
}

/// The frames so far: their number, the place of the last, and their texts.
#[derive(Drop)]
pub struct FrameTable {
    pub count: u16,
    pub last: Option<u16>,
    pub text: Items<u8>,
}

/// A code with the lines so far.
#[derive(Drop)]
pub struct CodeDraft {
    pub method: MethodDraft,
    /// `max_stack`, a long or a double counting two.
    pub stack: u16,
    /// `max_locals`, a long or a double taking two.
    pub locals: u16,
    /// The instructions.
    pub bytes: Items<u8>,
    pub handlers: Items<Handler>,
    pub frames: Option<FrameTable>,
    /// All labels of the code.
    pub labels: Labels,
    /// How many of them stand in the lines so far.
    pub passed: usize,
}

// The indices of the name and of the descriptor of a method line.
#[tactic(auto, unfolding(crate::specs::Drafts::method_begun))]
fn method_names(
    alloc: Global,
    line: &MethodLine,
    class: &mut ClassDraft,
) -> Result<(u16, u16), LineFault>
    ensures { Yields (spec.method_named line.now class.new) result (spec.method_begun line.now class.old) }
{
    if class.methods.len() >= 65535 {
        return Err(LineFault::Outside);
    }
    let name = utf8_index(alloc, line.name.as_slice(), &mut class.pool)?;
    let desc = utf8_index(alloc, line.desc.as_slice(), &mut class.pool)?;
    Ok((name, desc))
}

/// The method of a method line. `Outside` comes where the pool has no room for what it needs, or the class has 65,535
/// methods.
pub fn begin_method(
    alloc: Global,
    line: &MethodLine,
    class: ClassDraft,
) -> Result<MethodDraft, LineFault>
    ensures { Yields (λ m. m) result (spec.method_begun line.now class) }
{
    let mut class = class;
    match method_names(alloc, line, &mut class) {
        Ok((name, desc)) => Ok(MethodDraft {
            class,
            flags: line.flags,
            name,
            desc,
        }),
        Err(fault) => Err(leave_class(class, fault)),
    }
}

/// Lets go of a method, and hands on a fault.
pub fn leave_method(_method: MethodDraft, fault: LineFault) -> LineFault
    ensures { result ≡ fault }
{
    fault
}

/// The class with the method, which has this code.
pub fn close_method(method: MethodDraft, code: Option<CodeTree>) -> Result<ClassDraft, AllocError>
    ensures { IfOk result (λ c. c ≡ spec.method_closed method code) }
{
    let MethodDraft {
        mut class,
        flags,
        name,
        desc,
    } = method;
    class.methods.push(MethodTree {
        flags,
        name,
        desc,
        code,
    })?;
    Ok(class)
}

/// The code of a code line, with the labels of the lines that follow. `Outside` comes where the pool has no room for the
/// attribute's name.
#[tactic(auto, unfolding(crate::specs::Drafts::code_begun))]
pub fn begin_code(
    alloc: Global,
    line: &CodeLine,
    labels: Labels,
    method: MethodDraft,
) -> Result<CodeDraft, LineFault>
    ensures { Yields (λ c. c) result (spec.code_begun line.now labels method) }
{
    let mut method = method;
    match utf8_index(alloc, b"Code", &mut method.class.pool) {
        Ok(_) => Ok(CodeDraft {
            method,
            stack: line.stack,
            locals: line.locals,
            bytes: Items::new(alloc),
            handlers: Items::new(alloc),
            frames: None,
            labels,
            passed: 0,
        }),
        Err(fault) => Err(leave_method(method, fault)),
    }
}

/// Lets go of a code, and hands on a fault.
pub fn leave_code(_code: CodeDraft, fault: LineFault) -> LineFault
    ensures { result ≡ fault }
{
    fault
}

// The table of the frames so far, whose name is needed where the first frame stands.
#[tactic(auto, unfolding(crate::specs::Drafts::table_begun))]
fn begin_table(
    alloc: Global,
    frames: Option<FrameTable>,
    pool: &mut PoolBuilder,
) -> Result<FrameTable, LineFault>
    ensures { Gives (λ t. t) result pool.new (spec.table_begun frames pool.old) }
{
    if let Some(table) = frames {
        return Ok(table);
    }
    utf8_index(alloc, b"StackMapTable", pool)?;
    Ok(FrameTable {
        count: 0,
        last: None,
        text: Items::new(alloc),
    })
}

// Puts the frame of a frame line behind the others.
#[tactic(auto, unfolding(crate::specs::Drafts::table_grown))]
fn grow_table(
    alloc: Global,
    line: &FrameLine,
    labels: &Labels,
    table: &mut FrameTable,
    pool: &mut PoolBuilder,
) -> Result<(), LineFault>
    ensures { Does result (table.new, pool.new) (spec.table_grown line.now labels.now table.old pool.old) }
{
    if table.count >= 65535 {
        return Err(LineFault::Outside);
    }
    let place = short_place(labels, &line.label)?;
    let offset = delta(table.last, place)?;
    let text = frame_text(
        alloc,
        labels,
        offset,
        line.locals.as_slice(),
        line.stack.as_slice(),
        pool,
    )?;
    table.text.append(text)?;
    table.count += 1;
    table.last = Some(place);
    Ok(())
}

// The content of a StackMapTable (JVMS 4.7.4).
fn table_content(alloc: Global, table: FrameTable) -> Result<Items<u8>, AllocError>
    ensures { IfOk result (λ t. t ≡ spec.table_content table) }
{
    let mut content = Vec::new(alloc);
    put_u2(&mut content, table.count)?;
    content.extend_from_slice(table.text.as_slice())?;
    Ok(Items::from_vec(content))
}

fn optional_content(
    alloc: Global,
    frames: Option<FrameTable>,
) -> Result<Option<Items<u8>>, AllocError>
    ensures { IfOk result (λ t. t ≡ option_map spec.table_content frames) }
{
    match frames {
        Some(table) => Ok(Some(table_content(alloc, table)?)),
        None => Ok(None),
    }
}

// How many bytes a StackMapTable takes, counted up to 2^32.
fn table_size(frames: &Option<FrameTable>) -> usize
    ensures value { min result 0x1_0000_0000 ≡ min (spec.table_size frames.now) 0x1_0000_0000 }
    ensures small { result < 2 ^ 33 }
{
    match frames {
        Some(table) => table.text.len().min(0x1_0000_0000) + 8,
        None => 0,
    }
}

impl CodeDraft {
    /// Passes a label. `Outside` comes where it stands before, too.
    #[tactic(auto, unfolding(crate::specs::Drafts::label_passed))]
    pub fn pass_label(&mut self, name: &Items<u8>) -> Result<(), LineFault>
        ensures { Does result self.new (spec.label_passed name.now self.old) }
    {
        let Some(index) = self.labels.position(name.as_slice()) else {
            return Err(LineFault::Outside);
        };
        if index != self.passed {
            return Err(LineFault::Outside);
        }
        self.passed = index + 1;
        Ok(())
    }

    /// Adds the bytes of an operation. `Outside` comes where a label has no place or is too far away, an index doesn't fit, the
    /// pool has no room for what it needs, or the code would have more than 65,535 bytes.
    #[tactic(auto, unfolding(crate::specs::Drafts::operation_added), using(crate::proofs::Long::long_is_none))]
    pub fn add_operation(&mut self, alloc: Global, operation: &Operation) -> Result<(), LineFault>
        ensures { Does result self.new (spec.operation_added operation.now self.old) }
    {
        let Ok(place) = u32::try_from(self.bytes.len()) else {
            return Err(LineFault::Outside);
        };
        let text = emit(
            alloc,
            &self.labels,
            place,
            operation,
            &mut self.method.class.pool,
        )?;
        self.bytes.append(text)?;
        if self.bytes.len() > 65535 {
            return Err(LineFault::Outside);
        }
        Ok(())
    }

    /// Adds the row of a catch line. `Outside` comes where a label has no place or one above 65,535, the pool has no room for
    /// the class, or the code has 65,535 rows.
    #[tactic(auto, unfolding(crate::specs::Drafts::handler_added))]
    pub fn add_handler(&mut self, alloc: Global, line: &CatchLine) -> Result<(), LineFault>
        ensures { Does result self.new (spec.handler_added line.now self.old) }
    {
        if self.handlers.len() >= 65535 {
            return Err(LineFault::Outside);
        }
        let start = short_place(&self.labels, &line.from)?;
        let end = short_place(&self.labels, &line.to)?;
        let handler = short_place(&self.labels, &line.handler)?;
        let catch = optional_class(alloc, &line.class, &mut self.method.class.pool)?;
        self.handlers.push(Handler {
            start,
            end,
            handler,
            catch,
        })?;
        Ok(())
    }

    /// Adds the frame of a frame line. `Outside` comes where a label has no place or one above 65,535, the frame isn't behind
    /// the one before it, a list has more than 65,535 types, the pool has no room, or the code has 65,535 frames.
    #[tactic(auto, unfolding(crate::specs::Drafts::frame_added))]
    pub fn add_frame(&mut self, alloc: Global, line: &FrameLine) -> Result<(), LineFault>
        ensures { Does result self.new (spec.frame_added line.now self.old) }
    {
        let frames = self.frames.take();
        let mut table = begin_table(alloc, frames, &mut self.method.class.pool)?;
        grow_table(
            alloc,
            line,
            &self.labels,
            &mut table,
            &mut self.method.class.pool,
        )?;
        self.frames = Some(table);
        Ok(())
    }
}

// The length of a Code attribute stands in four bytes.
fn is_short(code: &CodeDraft) -> bool
    ensures { result ≡ spec.is_short code.now }
{
    let bytes = code.bytes.len().min(0x1_0000_0000);
    let handlers = code.handlers.len().min(0x1_0000_0000);
    12 + bytes + 8 * handlers + table_size(&code.frames) < 0x1_0000_0000
}

// A code has an instruction, and its attribute a length.
fn may_end(code: &CodeDraft) -> bool
    ensures { result ≡ spec.may_end code.now }
{
    code.bytes.len() != 0 && is_short(code)
}

// The method of a code, and its tree, which has this StackMapTable.
fn into_parts(code: CodeDraft, map: Option<Items<u8>>) -> (MethodDraft, CodeTree)
    ensures { result ≡ (code.method, spec.code_tree code map) }
{
    (
        code.method,
        CodeTree {
            stack: code.stack,
            locals: code.locals,
            bytes: code.bytes,
            handlers: code.handlers,
            map,
        },
    )
}

// The class with the method of a code.
fn close_code(alloc: Global, code: CodeDraft) -> Result<ClassDraft, LineFault>
    ensures { Yields (λ c. c) result (Some (spec.code_closed code)) }
{
    let mut code = code;
    match optional_content(alloc, code.frames.take()) {
        Ok(map) => {
            let (method, tree) = into_parts(code, map);
            Ok(close_method(method, Some(tree))?)
        }
        Err(_) => Err(leave_code(code, LineFault::Memory)),
    }
}

/// The class with the method of a code that ends here. `Outside` comes where it has no instruction, or the Code attribute
/// would have 2^32 bytes or more.
#[tactic(auto, unfolding(crate::specs::Drafts::code_ended))]
pub fn end_code(alloc: Global, code: CodeDraft) -> Result<ClassDraft, LineFault>
    ensures { Yields (λ c. c) result (spec.code_ended code) }
{
    if may_end(&code) {
        close_code(alloc, code)
    } else {
        Err(leave_code(code, LineFault::Outside))
    }
}
