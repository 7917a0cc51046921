//! From the text of a head to what it says.

ghost use Rattle.std.specs.Prelude.{◌≡◌, ◌≢◌, ◌≤◌, ◌-◌, ℕ, ◌++◌, List, codes, length, take, IfOk, IfErr};
ghost use Rattle.std.specs.Bool.{OnTrue, OnFalse};
ghost use Rattle.path_head.specs.declared.fact.Fact.{Fact};
ghost use Rattle.path_head.specs.declared.front.Front.{Front};
ghost use Rattle.path_head.specs.declared.head.HeadFault.TheVariants.{OutOfMemory};
ghost use Rattle.path_head.specs.HeadTexts.{facts_before, head_before, FrontFits, FactsFit};

use crate::fact::{Fact, first_fact};
use crate::front::{Front, front_lines, sum_line};
use path_decl::Decl;
use path_fields::strip;
use std::alloc::{AllocError, AllocFailed, Allocator, Global};
use thiserror::Error;

/// A head: what it says of its file, and the state behind which the lines of the file come.
#[derive(Drop)]
pub struct Head<A: Allocator + Copy = Global> {
    /// What it says of its file and of the files before.
    pub front: Front,
    /// What it says of the state, one fact a line.
    pub facts: Vec<Fact, A>,
}

/// Why a text begins with no head.
#[derive(Clone, Copy, Debug, PartialEq, Eq, Error)]
pub enum HeadFault {
    /// This line, counted from 0, is none of a head.
    #[error("bad line {0}")]
    BadLine(usize),
    /// An allocation failed.
    #[error("out of memory")]
    OutOfMemory,
}

impl From<AllocError> for HeadFault {
    ghost from_gives = { λ _ e. e ≡ OutOfMemory };

    fn from(_error: AllocError) -> HeadFault {
        HeadFault::OutOfMemory
    }
}

impl<T: Drop> From<AllocFailed<T>> for HeadFault {
    ghost from_gives = { λ _ e. e ≡ OutOfMemory };

    fn from(_error: AllocFailed<T>) -> HeadFault {
        HeadFault::OutOfMemory
    }
}

/// Whether a text begins as the last line of a head does.
fn begins_sum(text: &[u8]) -> bool
    ensures yes { OnTrue result ((rest : List ℕ) × (text.now ≡ codes "sum " ++ rest)) }
    ensures no { OnFalse result ((rest : List ℕ) → text.now ≢ codes "sum " ++ rest) }
{
    strip(text, b"sum ").is_some()
}

/// The facts that a text begins with, up to the last line of the head, and the text from there on; `before` lines precede them.
fn read_facts<'a, A: Allocator + Copy, B: Allocator + Copy>(
    alloc: B,
    decl: &Decl<A>,
    before: usize,
    text: &'a [u8],
) -> Result<(Vec<Fact, B>, &'a [u8]), HeadFault>
    ensures ok { IfOk result (λ p. (text.now ≡ facts_before decl.now.declaration p.0.items p.1.now)
        × FactsFit decl.now.declaration p.0.items) }
    ensures sum { IfOk result (λ p. (rest : List ℕ) × (p.1.now ≡ codes "sum " ++ rest)) }
    ensures none { IfErr result (λ e. e ≢ OutOfMemory → (fs : List Fact) (rest : List ℕ) → FactsFit decl.now.declaration fs
        → text.now ≢ facts_before decl.now.declaration fs (codes "sum " ++ rest)) }
{
    let mut facts = Vec::new(alloc);
    let mut rest = text;
    while !begins_sum(rest) {
        match first_fact(decl, rest) {
            Some((fact, after)) => {
                facts.push(fact)?;
                rest = after;
            }
            None => return Err(HeadFault::BadLine(before.saturating_add(facts.len()))),
        }
    }
    Ok((facts, rest))
}

/// What stands above the last line of a text, with which `last` begins.
fn above<'a>(text: &'a [u8], last: &[u8]) -> &'a [u8]
    requires { length last.now ≤ length text.now }
    ensures { result.now ≡ take (length text.now - length last.now) text.now }
{
    &text[..text.len() - last.len()]
}

/// The head that a text begins with, and what follows it, of a declaration whose printed text, without its line feed, is `print`. What is
/// in progress is of its operations. Fails with `BadLine` for the first line that is none of a head, as when the sum is another, or with
/// `OutOfMemory`.
pub fn read_head<'a, A: Allocator + Copy, B: Allocator + Copy>(
    alloc: B,
    decl: &Decl<A>,
    print: &[u8],
    text: &'a [u8],
) -> Result<(Head<B>, &'a [u8]), HeadFault>
    ensures ok { IfOk result (λ p. text.now ≡ head_before decl.now.declaration print.now p.0.front p.0.facts.items p.1.now) }
    ensures fits { IfOk result (λ p. FrontFits p.0.front × FactsFit decl.now.declaration p.0.facts.items) }
    // A head has one text.
    ensures one { IfOk result (λ p. (f : Front) (fs : List Fact) (rest : List ℕ) → FrontFits f → FactsFit decl.now.declaration fs
        → text.now ≡ head_before decl.now.declaration print.now f fs rest → (f ≡ p.0.front) × (fs ≡ p.0.facts.items) × (rest ≡ p.1.now)) }
    // Any error but OutOfMemory: the text begins with no head.
    ensures none { IfErr result (λ e. e ≢ OutOfMemory → (f : Front) (fs : List Fact) (rest : List ℕ) → FrontFits f
        → FactsFit decl.now.declaration fs → text.now ≢ head_before decl.now.declaration print.now f fs rest) }
{
    let (front, rest) = match front_lines(print, text) {
        Ok(read) => read,
        Err(line) => return Err(HeadFault::BadLine(line)),
    };
    let before = if front.link.is_some() { 4usize } else { 5usize };
    let (facts, last) = match read_facts(alloc, decl, before, rest) {
        Ok(read) => read,
        Err(fault) => return Err(fault),
    };
    let Some(after) = sum_line(last, b"sum ", above(text, last)) else {
        return Err(HeadFault::BadLine(before.saturating_add(facts.len())));
    };
    let head = Head { front, facts };
    Ok((head, after))
}
