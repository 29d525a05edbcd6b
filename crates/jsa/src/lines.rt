//! The line that an end puts to `err`.
ghost use Rattle.std.specs.Prelude.{◌≡◌, ◌≢◌, ◌≤◌, ◌++◌, ℕ, [], codes, IfOk, OnOk};
ghost use Rattle.std.specs.Fmt.{decimal};
ghost use Rattle.std.specs.String.{string_bytes};
ghost use Rattle.jsa_files.specs.Sinks.{GrowsByFront};
ghost use Rattle.jsa.specs.Completes.{IsOrMemory};
ghost use Rattle.jsa.specs.Lines.{quantity_name, cause_name, cause_end, line_of, TakesLine, TakesFront, CountsErr};

use crate::ended::Ended;
use archive_header::Refuse;
use jsa_base::Quantity;
use jsa_files::{Sink, SinkFault};
use std::alloc::{AllocError, Global};

fn quantity_name(quantity: Quantity) -> &'static str
    ensures { result.now ≡ quantity_name quantity }
{
    match quantity {
        Quantity::FileSize => "FileSize",
        Quantity::Names => "Names",
        Quantity::Classes => "Classes",
        Quantity::ArchiveSize => "ArchiveSize",
        Quantity::Loaded => "Loaded",
    }
}

// Why an archive was refused.
fn cause_name(alloc: Global, refuse: Refuse) -> Result<String, AllocError>
    ensures { IfOk result (λ cause. string_bytes cause ≡ cause_name refuse) }
{
    match refuse {
        Refuse::Short => String::from_str(alloc, "short"),
        Refuse::Magic => String::from_str(alloc, "magic"),
        Refuse::Version(format) => format!(in alloc; "version {format}"),
        Refuse::Digest { .. } => String::from_str(alloc, "digest"),
        Refuse::Layer { .. } => String::from_str(alloc, "layer"),
        Refuse::Malformed => String::from_str(alloc, "malformed"),
        Refuse::Path(folder) => format!(in alloc; "path {folder}"),
        Refuse::Base { .. } => String::from_str(alloc, "base"),
        Refuse::Memory => String::from_str(alloc, "memory"),
    }
}

fn cause_end(alloc: Global, refuse: Refuse) -> Result<String, AllocError>
    ensures { IfOk result (λ end. string_bytes end ≡ cause_end refuse) }
{
    let cause = cause_name(alloc, refuse)?;
    format!(in alloc; ": {}\n", cause.as_str())
}

// What a line tells, between what stands before and behind it.
fn around(alloc: Global, front: &str, subject: &[u8], end: &str) -> Result<Vec<u8>, AllocError>
    ensures { IfOk result (λ line. line.items ≡ front.now ++ (subject.now ++ end.now)) }
{
    let mut line = Vec::from_slice(alloc, front.as_bytes())?;
    line.extend_from_slice(subject)?;
    line.extend_from_slice(end.as_bytes())?;
    Ok(line)
}

fn refused_line(alloc: Global, subject: &[u8], refuse: Refuse) -> Result<Vec<u8>, AllocError>
    ensures { IfOk result (λ line. line.items ≡ codes "not shared " ++ (subject.now ++ cause_end refuse)) }
{
    let end = cause_end(alloc, refuse)?;
    around(alloc, "not shared ", subject, end.as_str())
}

fn stopped_line(alloc: Global, steps: u64) -> Result<Vec<u8>, AllocError>
    ensures { IfOk result (λ line. line.items ≡ codes "stopped after " ++ decimal steps ++ codes " steps\n") }
{
    let line = format!(in alloc; "stopped after {steps} steps\n")?;
    Vec::from_slice(alloc, line.as_bytes())
}

fn limit_line(alloc: Global, quantity: Quantity, limit: u64) -> Result<Vec<u8>, AllocError>
    ensures { IfOk result (λ line. line.items ≡ codes "limit " ++ quantity_name quantity ++ codes " " ++ decimal limit ++ codes "\n") }
{
    let line = format!(in alloc; "limit {} {limit}\n", quantity_name(quantity))?;
    Vec::from_slice(alloc, line.as_bytes())
}

fn text_line(alloc: Global, number: u32) -> Result<Vec<u8>, AllocError>
    ensures { IfOk result (λ line. line.items ≡ codes "line " ++ decimal number ++ codes "\n") }
{
    let line = format!(in alloc; "line {number}\n")?;
    Vec::from_slice(alloc, line.as_bytes())
}

// The bytes of the line, of which an exit has none.
#[tactic(auto, unfolding(crate::specs::Lines::line_of))]
fn line(alloc: Global, ended: Ended, subject: &[u8], steps: u64) -> Result<Vec<u8>, AllocError>
    ensures { IfOk result (λ line. line.items ≡ line_of ended subject.now steps) }
{
    match ended {
        Ended::Exit(_) => Ok(Vec::new(alloc)),
        Ended::Usage => Vec::from_slice(alloc, b"usage\n"),
        Ended::BadText(number) => text_line(alloc, number),
        Ended::NoBoot => around(alloc, "no boot class ", subject, "\n"),
        Ended::NoMain => around(alloc, "no main in ", subject, "\n"),
        Ended::Missing => around(alloc, "missing ", subject, "\n"),
        Ended::NotShared(refuse) => refused_line(alloc, subject, refuse),
        Ended::Stopped => stopped_line(alloc, steps),
        Ended::Unsupported => around(alloc, "unsupported ", subject, "\n"),
        Ended::ReadFault => Vec::from_slice(alloc, b"read fault\n"),
        Ended::WriteFault => Vec::from_slice(alloc, b"write fault\n"),
        Ended::Limit(quantity, limit) => limit_line(alloc, quantity, limit),
        Ended::Memory => Vec::from_slice(alloc, b"out of memory\n"),
    }
}

// Puts a line. A put that fails is passed over, and one that runs out of memory isn't.
fn put_line<E: Sink>(alloc: Global, line: &[u8], err: &mut E) -> Result<(), AllocError>
    ensures front { GrowsByFront (E.taken err.old) (E.taken err.new) line.now }
    ensures line { OnOk result (TakesLine (E.taken err.old) (E.taken err.new)
        (E.faults err.old) (E.faults err.new) (E.can_fail err.old) line.now) }
    ensures faults { E.faults err.old ≤ E.faults err.new }
    ensures stays { E.can_fail err.new → E.can_fail err.old }
{
    match err.put(alloc, line) {
        Ok(()) => Ok(()),
        Err(SinkFault::Failed) => Ok(()),
        Err(SinkFault::Memory) => Err(AllocError),
    }
}

// Puts the line of `Memory`, which takes no memory to make.
#[tactic(auto, unfolding(crate::specs::Lines::line_of))]
fn tell_memory<E: Sink>(alloc: Global, err: &mut E) -> Ended
    ensures memory { result ≡ Ended.Memory }
    ensures front { GrowsByFront (E.taken err.old) (E.taken err.new) (line_of Ended.Memory [] 0) }
    ensures faults { E.faults err.old ≤ E.faults err.new }
    ensures stays { E.can_fail err.new → E.can_fail err.old }
{
    let _ = put_line(alloc, b"out of memory\n", err);
    Ended::Memory
}

/// Puts the line of the end to `err`, and answers the end. Some lines tell the subject, a name or a path, one the limit of
/// turns, and an exit has none. A put that fails changes no answer. The answer is `Memory` where the end is, and
/// where memory runs out in making the line or in putting it; unless it was a put that ran out, the line of `Memory` is
/// put then.
#[tactic(auto, unfolding(crate::specs::Lines::line_of))]
pub fn tell<E: Sink>(alloc: Global, ended: Ended, subject: &[u8], steps: u64, err: &mut E) -> Ended
    ensures same { IsOrMemory result ended }
    ensures line { result ≢ Ended.Memory → TakesLine (E.taken err.old) (E.taken err.new)
        (E.faults err.old) (E.faults err.new) (E.can_fail err.old) (line_of ended subject.now steps) }
    ensures memory { result ≡ Ended.Memory → TakesFront (E.taken err.old) (E.taken err.new) ended subject.now steps }
    ensures faults { CountsErr (E.faults err.old) (E.faults err.new) result }
    ensures stays { E.can_fail err.new → E.can_fail err.old }
{
    match ended {
        Ended::Exit(_) => ended,
        Ended::Memory => tell_memory(alloc, err),
        _ => tell_line(alloc, ended, subject, steps, err),
    }
}

// The same for an end that is neither an exit nor `Memory`. Its line may take memory.
#[tactic(auto, using(crate::proofs::Tells::memory_front, crate::proofs::Tells::counts_err))]
fn tell_line<E: Sink>(alloc: Global, ended: Ended, subject: &[u8], steps: u64, err: &mut E) -> Ended
    requires { (code : ℕ) → ended ≢ Ended.Exit code }
    ensures same { IsOrMemory result ended }
    ensures line { result ≢ Ended.Memory → TakesLine (E.taken err.old) (E.taken err.new)
        (E.faults err.old) (E.faults err.new) (E.can_fail err.old) (line_of ended subject.now steps) }
    ensures memory { result ≡ Ended.Memory → TakesFront (E.taken err.old) (E.taken err.new) ended subject.now steps }
    ensures faults { CountsErr (E.faults err.old) (E.faults err.new) result }
    ensures stays { E.can_fail err.new → E.can_fail err.old }
{
    let Ok(line) = line(alloc, ended, subject, steps) else {
        return tell_memory(alloc, err);
    };
    match put_line(alloc, line.as_slice(), err) {
        Ok(()) => ended,
        Err(_) => Ended::Memory,
    }
}
