//! From attempts, replies and lines of a journal to their texts. The functions fail only if allocation fails.

ghost use Rattle.std.specs.Prelude.{◌≡◌, ◌++◌, ◌∷◌, [], codes, decimal, IfOk, OnOk};
ghost use Rattle.std.specs.String.{string_bytes};
ghost use Rattle.path_lines.specs.LineTexts.{verb_text, operation_text, use_text, attempt_text, line_text};
ghost use Rattle.path_lines.specs.LineTexts.{reply_words, reply_number, spaced, reply_text, journal_line_text};

use itoa::write_digits;
use path_decl::{Decl, op_name};
use path_model::{ActId, Attempt, Line, OpId, OutOfMemory, PathId, Reply, Verb};
use std::alloc::Allocator;

/// Appends a verb, with its number if it has one.
fn push_verb<A: Allocator + Copy>(out: &mut String<A>, verb: Verb) -> Result<(), OutOfMemory>
    ensures { OnOk result (string_bytes out.new ≡ string_bytes out.old ++ verb_text verb) }
{
    match verb {
        Verb::Put(x) => write!(out, "put {x}")?,
        Verb::Take => out.push_str("take")?,
        Verb::Look => out.push_str("look")?,
        Verb::Add(x) => write!(out, "add {x}")?,
    }
    Ok(())
}

/// Appends the name of a declared operation, or `#` and the number of an undeclared one. If allocation fails, what the text contains
/// then isn't specified. Allocates only if the capacity of the text isn't enough.
pub fn push_operation<A: Allocator + Copy, B: Allocator + Copy>(
    out: &mut String<A>,
    decl: &Decl<B>,
    op: OpId,
) -> Result<(), OutOfMemory>
    ensures { OnOk result (string_bytes out.new ≡ string_bytes out.old ++ operation_text decl.now.declaration op) }
{
    match op_name(decl, op) {
        Some(name) => out.push_str(name)?,
        None => {
            let number = op.0;
            write!(out, "#{number}")?;
        }
    }
    Ok(())
}

/// Appends an attempt without its worker.
fn push_attempt<A: Allocator + Copy, B: Allocator + Copy>(
    out: &mut String<A>,
    decl: &Decl<B>,
    attempt: Attempt,
) -> Result<(), OutOfMemory>
    ensures { OnOk result (string_bytes out.new ≡ string_bytes out.old ++ attempt_text decl.now.declaration attempt) }
{
    match attempt {
        Attempt::Start(op) => {
            out.push_str("start ")?;
            push_operation(out, decl, op)?;
        }
        Attempt::Apply(ActId(number), verb) => {
            write!(out, "use {number} ")?;
            push_verb(out, verb)?;
        }
        Attempt::Finish(ActId(number)) => write!(out, "finish {number}")?,
    }
    Ok(())
}

/// A reply of each kind, with 0 for its number if it has one.
pub const REPLIES: &[Reply] = &[
    Reply::Started(ActId(0)),
    Reply::Finished,
    Reply::Used(0),
    Reply::Blocked(PathId(0)),
    Reply::UnknownOperation,
    Reply::NotOffered,
    Reply::Empty,
    Reply::Full,
    Reply::Overflow,
    Reply::DeviceFailed,
    Reply::Stale,
    Reply::NotYours,
    Reply::NoRoom,
];

/// The words of a reply, and the number that follows them and a space, if it has one. Takes constant time.
pub fn spelled(reply: Reply) -> (&'static str, Option<u64>)
    ensures words { result.0.now ≡ reply_words reply }
    ensures number { result.1 ≡ reply_number reply }
{
    match reply {
        Reply::Started(act) => ("started", Some(act.0)),
        Reply::Blocked(path) => ("blocked", Some(u64::from(path.0))),
        Reply::UnknownOperation => ("unknown operation", None),
        Reply::Used(answer) => ("used", Some(answer)),
        Reply::NotOffered => ("not offered", None),
        Reply::Empty => ("empty", None),
        Reply::Full => ("full", None),
        Reply::Overflow => ("overflow", None),
        Reply::DeviceFailed => ("device failed", None),
        Reply::Finished => ("finished", None),
        Reply::Stale => ("stale", None),
        Reply::NotYours => ("not yours", None),
        Reply::NoRoom => ("no room", None),
    }
}

/// Appends words, a number and a line feed.
fn push_numbered<A: Allocator + Copy>(
    out: &mut Vec<u8, A>,
    words: &[u8],
    number: u64,
) -> Result<(), OutOfMemory>
    ensures { OnOk result (out.new.items ≡ out.old.items ++ (words.now ++ (decimal number ++ 10 ∷ []))) }
{
    let mut line = [b'\n'; 21];
    let start = write_digits(number, &mut line, 20);
    out.extend_from_slice(words)?;
    out.extend_from_slice(&line[start..])?;
    Ok(())
}

/// Appends what follows an attempt in its line: `: `, the text of the reply and a line feed. If allocation fails, what the
/// list contains then isn't specified. Allocates only if the capacity of the list isn't enough. Each reply is appended at once, not
/// by the words of [`spelled`]: a trace does little else.
pub fn push_told<A: Allocator + Copy>(out: &mut Vec<u8, A>, reply: Reply) -> Result<(), OutOfMemory>
    ensures { OnOk result (out.new.items ≡ out.old.items ++ (codes ": " ++ (reply_text reply ++ 10 ∷ []))) }
{
    match reply {
        Reply::Started(act) => push_numbered(out, b": started ", act.0)?,
        Reply::Blocked(path) => push_numbered(out, b": blocked ", u64::from(path.0))?,
        Reply::UnknownOperation => out.extend_from_slice(b": unknown operation\n")?,
        Reply::Used(answer) => push_numbered(out, b": used ", answer)?,
        Reply::NotOffered => out.extend_from_slice(b": not offered\n")?,
        Reply::Empty => out.extend_from_slice(b": empty\n")?,
        Reply::Full => out.extend_from_slice(b": full\n")?,
        Reply::Overflow => out.extend_from_slice(b": overflow\n")?,
        Reply::DeviceFailed => out.extend_from_slice(b": device failed\n")?,
        Reply::Finished => out.extend_from_slice(b": finished\n")?,
        Reply::Stale => out.extend_from_slice(b": stale\n")?,
        Reply::NotYours => out.extend_from_slice(b": not yours\n")?,
        Reply::NoRoom => out.extend_from_slice(b": no room\n")?,
    }
    Ok(())
}

/// Appends the text of a reply. If allocation fails, what the text contains then isn't specified. Allocates only if the
/// capacity of the text isn't enough.
pub fn push_reply<A: Allocator + Copy>(out: &mut String<A>, reply: Reply) -> Result<(), OutOfMemory>
    ensures { OnOk result (string_bytes out.new ≡ string_bytes out.old ++ reply_text reply) }
{
    let (words, number) = spelled(reply);
    out.push_str(words)?;
    if let Some(number) = number {
        write!(out, " {number}")?;
    }
    Ok(())
}

/// Appends the text of a line without a line feed: the attempt, `: ` and the reply. An operation that isn't declared is written as
/// `#` and its number. If allocation fails, what the text contains then isn't specified. Allocates only if the capacity of the text
/// isn't enough.
pub fn push_line<A: Allocator + Copy, B: Allocator + Copy>(
    out: &mut String<A>,
    decl: &Decl<B>,
    line: &Line,
) -> Result<(), OutOfMemory>
    ensures { OnOk result (string_bytes out.new ≡ string_bytes out.old ++ journal_line_text decl.now.declaration line.now) }
{
    let worker = line.worker;
    write!(out, "{worker} ")?;
    push_attempt(out, decl, line.attempt)?;
    out.push_str(": ")?;
    push_reply(out, line.reply)
}

/// The text of a line without a line feed: the attempt, `: ` and the reply. Fails only if allocation fails.
pub fn write_line<A: Allocator + Copy, B: Allocator + Copy>(
    alloc: A,
    decl: &Decl<B>,
    line: &Line,
) -> Result<String<A>, OutOfMemory>
    ensures { IfOk result (λ text. string_bytes text ≡ journal_line_text decl.now.declaration line.now) }
{
    let mut text = String::new(alloc);
    push_line(&mut text, decl, line)?;
    Ok(text)
}
