//! Attempts in the form that nearly all have, for whoever reads many. What isn't in that form is left to the readers that say where it
//! stops.

ghost use Rattle.std.specs.Prelude.{◌≡◌, ◌<◌, ◌^◌, ◌++◌, decimal, IfSome, IfOk, IfErr, OnErr};
ghost use Rattle.std.specs.Prelude.{◌≢◌, [], length};
ghost use Rattle.path_lines.specs.LineTexts.{attempt_text, line_text, operation_text, use_text, AttemptFits, VerbFits};
ghost use Rattle.path_lines.specs.AttemptTexts.{EntryFits, IsFirstFault, IsFirstLine, IsNoRest};

use crate::entry::{FirstLine, LAST_WORKER, first_entry};
use crate::stop::Stop;
use path_decl::{Decl, op_name};
use path_fields::{at_end, number, strip, until};
use path_model::{ActId, Attempt, OpId, Verb};
use std::alloc::Allocator;

/// Which operation a name was lately. Names share a place if their first and last bytes and their lengths fall together.
#[derive(Drop)]
pub struct Recent {
    ops: [u32; 64],
}

/// The place of a name.
#[inline(always)]
fn place_of(name: &[u8]) -> usize
    ensures { result < 64 }
{
    let mixed = match name {
        [] => 0,
        [only] => *only,
        [first, .., last] => first.wrapping_mul(5) ^ last.wrapping_mul(11),
    };
    ((mixed ^ (name.len() & 63) as u8) & 63) as usize
}

impl Recent {
    /// Nothing was read yet.
    pub fn new() -> Recent {
        Recent { ops: [0; 64] }
    }

    /// The operation that had this name lately; `None` if another had its place.
    #[inline(always)]
    fn find<A: Allocator + Copy>(&self, decl: &Decl<A>, name: &[u8]) -> Option<OpId>
        ensures { IfSome result (λ a. (name.now ≡ operation_text decl.now.declaration a) × (a.0 < 2 ^ 32)) }
    {
        let op = OpId(self.ops[place_of(name)]);
        let known = op_name(decl, op)?;
        if known.as_bytes() != name {
            return None;
        }
        Some(op)
    }

    /// An attempt was read: if it starts an operation, this is the one that its name had lately.
    pub fn note<A: Allocator + Copy>(&mut self, decl: &Decl<A>, attempt: Attempt) {
        if let Attempt::Start(op) = attempt
            && let Some(name) = op_name(decl, op)
        {
            self.ops[place_of(name.as_bytes())] = op.0;
        }
    }
}

/// The number that a text begins with, if the text has eight bytes at least: read from these, since no product of theirs can be too large,
/// which leaves a few instructions for each.
#[inline(always)]
pub fn short_number(text: &[u8]) -> Option<(u64, &[u8])>
    ensures { IfSome result (λ p. text.now ≡ decimal p.0 ++ p.1.now) }
{
    if text.len() < 8 {
        return None;
    }
    let (value, rest) = number(&text[..8])?;
    Some((value, &text[8 - rest.len()..]))
}

/// The activation of a use, its verb, and what follows.
#[inline(always)]
fn usual_use(text: &[u8]) -> Option<(ActId, Verb, &[u8])>
    ensures text { IfSome result (λ p. text.now ≡ use_text p.0.0 p.1 ++ p.2.now) }
    ensures fits { IfSome result (λ p. (p.0.0 < 2 ^ 64) × VerbFits p.1) }
{
    let (act, rest) = short_number(text)?;
    let rest = strip(rest, b" ")?;
    if let Some(rest) = strip(rest, b"put ") {
        let (value, rest) = short_number(rest)?;
        return Some((ActId(act), Verb::Put(value), rest));
    }
    if let Some(rest) = strip(rest, b"look") {
        return Some((ActId(act), Verb::Look, rest));
    }
    if let Some(rest) = strip(rest, b"take") {
        return Some((ActId(act), Verb::Take, rest));
    }
    let rest = strip(rest, b"add ")?;
    let (value, rest) = short_number(rest)?;
    Some((ActId(act), Verb::Add(value), rest))
}

/// The attempt behind the worker's number, and what follows. A name ends before the first byte that is `end`.
#[inline(always)]
fn usual_attempt<'a, A: Allocator + Copy>(
    decl: &Decl<A>,
    recent: &Recent,
    text: &'a [u8],
    end: u8,
) -> Option<(Attempt, &'a [u8])>
    ensures text { IfSome result (λ p. text.now ≡ attempt_text decl.now.declaration p.0 ++ p.1.now) }
    ensures fits { IfSome result (λ p. AttemptFits p.0) }
{
    if let Some(rest) = strip(text, b"use ") {
        let (act, verb, rest) = usual_use(rest)?;
        return Some((Attempt::Apply(act, verb), rest));
    }
    if let Some(rest) = strip(text, b"start ") {
        let (name, rest) = until(rest, end);
        let op = recent.find(decl, name)?;
        return Some((Attempt::Start(op), rest));
    }
    let rest = strip(text, b"finish ")?;
    let (act, rest) = short_number(rest)?;
    Some((Attempt::Finish(ActId(act)), rest))
}

/// The worker and the attempt that a text begins with, if they are in the usual form, with short numbers and a name that was read
/// lately; and what follows. A name ends before the first byte that is `end`.
#[inline(always)]
pub fn usual_front<'a, A: Allocator + Copy>(
    decl: &Decl<A>,
    recent: &Recent,
    text: &'a [u8],
    end: u8,
) -> Option<(u32, Attempt, &'a [u8])>
    ensures text { IfSome result (λ p. text.now ≡ line_text decl.now.declaration p.0 p.1 ++ p.2.now) }
    ensures fits { IfSome result (λ p. EntryFits (p.0, p.1)) }
{
    let (worker, rest) = short_number(text)?;
    if worker > LAST_WORKER {
        return None;
    }
    let rest = strip(rest, b" ")?;
    let (attempt, rest) = usual_attempt(decl, recent, rest, end)?;
    Some((worker as u32, attempt, rest))
}

/// The first line of a text, if it is an attempt in the usual form.
#[inline(always)]
fn usual_entry<A: Allocator + Copy>(
    decl: &Decl<A>,
    recent: &Recent,
    text: &[u8],
) -> Option<FirstLine>
    ensures line { IfSome result (λ f. IsFirstLine (line_text decl.now.declaration f.worker f.attempt) text.now) }
    ensures fits { IfSome result (λ f. EntryFits (f.worker, f.attempt)) }
    ensures length { IfSome result (λ f. f.length ≡ length (line_text decl.now.declaration f.worker f.attempt)) }
{
    let (worker, attempt, rest) = usual_front(decl, recent, text, b'\n')?;
    let rest = at_end(rest)?;
    Some(FirstLine {
        worker,
        attempt,
        length: text.len() - rest.len(),
    })
}

/// The same as [`first_entry`], and quicker where the line is in the usual form. Names that were read are noted.
#[inline(always)]
pub fn next_entry<A: Allocator + Copy>(
    decl: &Decl<A>,
    recent: &mut Recent,
    text: &[u8],
) -> Result<FirstLine, Stop>
    ensures line { IfOk result (λ f. IsFirstLine (line_text decl.now.declaration f.worker f.attempt) text.now) }
    ensures fits { IfOk result (λ f. EntryFits (f.worker, f.attempt)) }
    ensures length { IfOk result (λ f. f.length ≡ length (line_text decl.now.declaration f.worker f.attempt)) }
    ensures err { IfErr result (λ stop. IsFirstFault decl.now.declaration text.now stop.fault) }
    // No attempts before this text make it a text of attempts.
    ensures none { OnErr result (text.now ≢ [] → IsNoRest decl.now.declaration text.now) }
{
    if let Some(first) = usual_entry(decl, recent, text) {
        return Ok(first);
    }
    let first = first_entry(decl, text)?;
    recent.note(decl, first.attempt);
    Ok(first)
}
