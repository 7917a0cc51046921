//! From the first line of a text to the worker and the attempt in it.
//!
//! Each reader takes a text and returns what it begins with and what follows that, so a line is read in one pass; or where it stopped.

ghost use Rattle.std.specs.Prelude.{◌≡◌, ◌≢◌, ◌↔◌, ℕ, ◌<◌, ◌≤◌, ◌^◌, [], ◌∷◌, ◌++◌, List, decimal, length, All, Contains};
ghost use Rattle.std.specs.Prelude.{Some, slice_get, IsTrue, IfSome, IfNone, IfOk, IfErr, OnErr};
ghost use Rattle.path_model.specs.declared.ids.OpId.{OpId};
ghost use Rattle.path_model.specs.declared.journal.Verb.{Verb};
ghost use Rattle.path_model.specs.declared.journal.Attempt.{Attempt};
ghost use Rattle.path_lex.specs.Names.{IsName};
ghost use Rattle.path_fields.specs.Splits.{EndsAt};
ghost use Rattle.path_lines.specs.LineTexts.{operation_names, operation_text, verb_text, use_text, attempt_text, line_text};
ghost use Rattle.path_lines.specs.LineTexts.{VerbFits, AttemptFits};
ghost use Rattle.path_lines.specs.AttemptTexts.{EntryFits, IsAttemptFault, IsFirstLine, IsFirstFault, IsNoRest};

use crate::stop::{Stop, Wanted, after, end, keyword, last, number_to, stop_at, word};
use path_decl::{Decl, counts, operation};
use path_fields::{number, strip, until};
use path_lex::is_name;
use path_model::{ActId, Attempt, OpId, Verb};
use std::alloc::Allocator;

/// The greatest number of a worker.
pub(crate) const LAST_WORKER: u64 = 4_294_967_295;

/// Why a line isn't an attempt.
#[derive(Clone, Copy, Debug, PartialEq, Eq)]
pub enum LineFault {
    /// It has none of the forms.
    Bad,
    /// It is right except that its name isn't a declared operation.
    Undeclared,
}

/// The first line of a text.
#[derive(Clone, Copy, Debug, PartialEq, Eq)]
pub struct FirstLine {
    /// The worker.
    pub worker: u32,
    /// The worker's attempt.
    pub attempt: Attempt,
    /// The bytes of the line, without its line feed.
    pub length: usize,
}

/// The verb that is the whole first line of the text, with its number if it has one, and the text from the end of that line on, which
/// is empty or begins with a line feed; else where that line stops being a verb. One pass over the line; allocates nothing.
pub fn read_verb(text: &[u8]) -> Result<(Verb, &[u8]), Stop>
    ensures ok { IfOk result (λ p. (text.now ≡ verb_text p.0 ++ p.1.now) × VerbFits p.0 × EndsAt 10 p.1.now) }
    ensures err { OnErr result ((v : Verb) (rest : List ℕ) → VerbFits v → EndsAt 10 rest → text.now ≢ verb_text v ++ rest) }
    ensures bad { IfErr result (λ stop. stop.fault ≡ LineFault.Bad) }
{
    if let Some(rest) = keyword(text, b"put") {
        let rest = after(rest, b" ", Wanted::Space)?;
        let (value, rest) = last(rest, u64::MAX, Wanted::Value)?;
        return Ok((Verb::Put(value), rest));
    }
    if let Some(rest) = keyword(text, b"look") {
        end(rest)?;
        return Ok((Verb::Look, rest));
    }
    if let Some(rest) = keyword(text, b"take") {
        end(rest)?;
        return Ok((Verb::Take, rest));
    }
    let Some(rest) = keyword(text, b"add") else {
        return Err(stop_at(text, Wanted::Verb));
    };
    let rest = after(rest, b" ", Wanted::Space)?;
    let (value, rest) = last(rest, u64::MAX, Wanted::Value)?;
    Ok((Verb::Add(value), rest))
}

/// The activation of a use, and its verb.
fn read_use(text: &[u8]) -> Result<(ActId, Verb, &[u8]), Stop>
    ensures ok { IfOk result (λ p. (text.now ≡ use_text p.0.0 p.1 ++ p.2.now) × (p.0.0 < 2 ^ 64) × VerbFits p.1 × EndsAt 10 p.2.now) }
    ensures err { OnErr result ((n : ℕ) (v : Verb) (r : List ℕ) → n < 2 ^ 64 → VerbFits v → EndsAt 10 r → text.now ≢ use_text n v ++ r) }
    ensures bad { IfErr result (λ stop. stop.fault ≡ LineFault.Bad) }
{
    let (act, rest) = number_to(text, u64::MAX, Wanted::Activation)?;
    let rest = after(rest, b" ", Wanted::Space)?;
    let (verb, rest) = read_verb(rest)?;
    Ok((ActId(act), verb, rest))
}

/// The operation whose number follows `#`. It isn't a declared one: its number is at least `operations`.
fn undeclared(text: &[u8], operations: u32) -> Option<OpId>
    ensures some { IfSome result (λ a. (text.now ≡ 35 ∷ decimal a.0) × (operations ≤ a.0) × (a.0 < 2 ^ 32)) }
    ensures none { IfNone result ((n : ℕ) → operations ≤ n → n < 2 ^ 32 → text.now ≢ 35 ∷ decimal n) }
{
    let digits = strip(text, b"#")?;
    let (value, rest) = number(digits)?;
    if !rest.is_empty() {
        return None;
    }
    let value = u32::try_from(value).ok()?;
    if value < operations {
        return None;
    }
    Some(OpId(value))
}

/// Whether all of these bytes are ASCII. Names are short: a plain loop is faster than one over words.
fn is_ascii(name: &[u8]) -> bool
    ensures { IsTrue result ↔ All (λ b. b < 128) name.now }
{
    name.iter().all(|byte| *byte < 128)
}

/// The operation whose name is exactly these bytes; `None` if there is none. Names are ASCII, so nothing else is looked up. One pass
/// over the bytes and a look-up in a hash table; allocates nothing.
pub fn declared<A: Allocator + Copy>(decl: &Decl<A>, name: &[u8]) -> Option<OpId>
    ensures some { IfSome result (λ a. slice_get (operation_names decl.now.declaration) a.0 ≡ Some name.now) }
    ensures none { IfNone result (Contains (operation_names decl.now.declaration) name.now → ⊥) }
{
    if !is_ascii(name) {
        return None;
    }
    let name = unsafe { std::str::from_utf8_unchecked(name) };
    operation(decl, name)
}

/// The operation with this name or, if there is none, with the number after `#`.
fn read_operation<A: Allocator + Copy>(decl: &Decl<A>, text: &[u8]) -> Result<OpId, LineFault>
    ensures ok { IfOk result (λ a. (text.now ≡ operation_text decl.now.declaration a) × (a.0 < 2 ^ 32)) }
    ensures err { OnErr result ((a : OpId) → a.0 < 2 ^ 32 → text.now ≢ operation_text decl.now.declaration a) }
    ensures unnamed { OnErr result (Contains (operation_names decl.now.declaration) text.now → ⊥) }
    ensures fault { IfErr result (λ f. f ≡ LineFault.Undeclared ↔ IsName text.now) }
{
    if let Some(op) = declared(decl, text) {
        return Ok(op);
    }
    let operations = counts(decl).operations;
    match undeclared(text, operations) {
        Some(op) => Ok(op),
        None if is_name(text) => Err(LineFault::Undeclared),
        None => Err(LineFault::Bad),
    }
}

/// Where a text stops whose first line isn't an operation, but has this fault.
fn no_operation<A: Allocator + Copy>(decl: &Decl<A>, text: &[u8], fault: LineFault) -> Stop
    ensures { result.fault ≡ fault }
{
    let (name, rest) = word(text);
    let stop = match read_operation(decl, name) {
        Ok(_) => stop_at(rest, Wanted::End),
        Err(_) => stop_at(text, Wanted::Operation),
    };
    Stop { fault, ..stop }
}

/// The attempt after the worker's number, up to the end of the line.
fn read_attempt<'a, A: Allocator + Copy>(
    decl: &Decl<A>,
    text: &'a [u8],
) -> Result<(Attempt, &'a [u8]), Stop>
    ensures ok { IfOk result (λ p. (text.now ≡ attempt_text decl.now.declaration p.0 ++ p.1.now) × AttemptFits p.0 × EndsAt 10 p.1.now) }
    ensures err { OnErr result ((a : Attempt) (r : List ℕ)
        → AttemptFits a → EndsAt 10 r → text.now ≢ attempt_text decl.now.declaration a ++ r) }
    ensures fault { IfErr result (λ s. (line : List ℕ) → IsFirstLine line text.now → IsAttemptFault decl.now.declaration line s.fault) }
{
    if let Some(rest) = keyword(text, b"use") {
        let rest = after(rest, b" ", Wanted::Space)?;
        let (act, verb, rest) = read_use(rest)?;
        return Ok((Attempt::Apply(act, verb), rest));
    }
    if let Some(rest) = keyword(text, b"finish") {
        let rest = after(rest, b" ", Wanted::Space)?;
        let (act, rest) = last(rest, u64::MAX, Wanted::Activation)?;
        return Ok((Attempt::Finish(ActId(act)), rest));
    }
    let Some(rest) = keyword(text, b"start") else {
        return Err(stop_at(text, Wanted::Attempt));
    };
    let named = after(rest, b" ", Wanted::Space)?;
    let (name, rest) = until(named, b'\n');
    match read_operation(decl, name) {
        Ok(op) => Ok((Attempt::Start(op), rest)),
        Err(fault) => Err(no_operation(decl, named, fault)),
    }
}

/// The worker and the attempt in the first line of a text, and the length of that line. The line ends at its line feed or at the end
/// of the text; an empty text has an empty first line, which is bad. The error says why the line isn't an attempt, and where it stops
/// being one. One pass over the line and one look-up of a name; allocates nothing.
pub fn first_entry<A: Allocator + Copy>(decl: &Decl<A>, text: &[u8]) -> Result<FirstLine, Stop>
    ensures line { IfOk result (λ f. IsFirstLine (line_text decl.now.declaration f.worker f.attempt) text.now) }
    ensures fits { IfOk result (λ f. EntryFits (f.worker, f.attempt)) }
    ensures length { IfOk result (λ f. f.length ≡ length (line_text decl.now.declaration f.worker f.attempt)) }
    ensures err { IfErr result (λ stop. IsFirstFault decl.now.declaration text.now stop.fault) }
    // No attempts before this text make it a text of attempts.
    ensures none { OnErr result (text.now ≢ [] → IsNoRest decl.now.declaration text.now) }
{
    let (worker, rest) = number_to(text, LAST_WORKER, Wanted::Worker)?;
    let rest = after(rest, b" ", Wanted::Space)?;
    let (attempt, rest) = read_attempt(decl, rest)?;
    Ok(FirstLine {
        worker: worker as u32,
        attempt,
        length: text.len() - rest.len(),
    })
}
