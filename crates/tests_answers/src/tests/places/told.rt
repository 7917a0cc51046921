//! What is told of a text at fault.

use path_decl::Decl;
use path_journal::read_journal;
use path_lex::DeclFault;
use path_lines::{TextFault, read_attempts};
use path_model::OutOfMemory;
use path_read::read;
use path_script::{ScriptFault, read_script};
use std::alloc::{Allocator, Global};
use std::process::Abort;
use tell_places::{
    Finding, TextKind, declaration_finding, push_finding, script_finding, text_finding,
};
use test_support::Refusing;

/// A declaration whose deposits and removals alternate.
pub(crate) const SLOT: &str =
    "resource slot cell operation deposit, remove path deposit ; remove end end";

/// Of what kind a text is.
#[derive(Clone, Copy, Debug, PartialEq, Eq)]
pub(crate) enum Kind {
    Attempts,
    Journal,
    Script,
}

// What a finding says; nothing if there is none.
fn told<A: Allocator + Copy>(
    alloc: A,
    finding: Option<Finding<'_, A>>,
) -> Result<String<A>, OutOfMemory> {
    let mut out = String::new(alloc);
    if let Some(finding) = finding {
        push_finding(&mut out, "F", &finding)?;
    }
    Ok(out)
}

/// What is told of a declaration.
pub(crate) fn told_of_declaration<A: Allocator + Copy>(
    alloc: A,
    text: &[u8],
) -> Result<String<A>, OutOfMemory> {
    match read(alloc, text) {
        Ok(decl) => {
            drop(decl);
            Ok(String::new(alloc))
        }
        Err(DeclFault::OutOfMemory) => Err(OutOfMemory),
        Err(fault) => told(alloc, declaration_finding(alloc, text, fault)?),
    }
}

// The finding of a text of this kind.
fn finding<'a, A: Allocator + Copy>(
    alloc: A,
    decl: &Decl<A>,
    kind: Kind,
    text: &'a [u8],
) -> Result<Option<Finding<'a, A>>, OutOfMemory> {
    match kind {
        Kind::Attempts => match read_attempts(alloc, decl, text) {
            Ok(_) => Ok(None),
            Err(TextFault::OutOfMemory) => Err(OutOfMemory),
            Err(fault) => text_finding(alloc, decl, TextKind::Attempts, text, fault),
        },
        Kind::Journal => match read_journal(alloc, decl, text) {
            Ok(_) => Ok(None),
            Err(TextFault::OutOfMemory) => Err(OutOfMemory),
            Err(fault) => text_finding(alloc, decl, TextKind::Journal, text, fault),
        },
        Kind::Script => match read_script(alloc, decl, text) {
            Ok(_) => Ok(None),
            Err(ScriptFault::OutOfMemory) => Err(OutOfMemory),
            Err(fault) => script_finding(alloc, decl, text, fault),
        },
    }
}

/// What is told of a text of this kind under the slot's declaration.
pub(crate) fn told_of<A: Allocator + Copy>(
    alloc: A,
    kind: Kind,
    text: &[u8],
) -> Result<String<A>, OutOfMemory> {
    let Ok(decl) = read(alloc, SLOT.as_bytes()) else {
        return Err(OutOfMemory);
    };
    let found = finding(alloc, &decl, kind, text)?;
    let out = told(alloc, found);
    drop(decl);
    out
}

/// More requests than any call of these tests makes.
pub(crate) const ENOUGH: u64 = 200;

/// Whether what is told ends so, or memory ran out because a request was refused. Comparing two names copies each of them, and a refused
/// request for a copy is made good by a smaller one.
pub(crate) fn is_right(
    told: Result<String<&Refusing<Global>>, OutOfMemory>,
    has_refused: bool,
    want: &str,
) -> bool {
    match told {
        Ok(text) => text.as_str().ends_with(want),
        Err(OutOfMemory) => has_refused,
    }
}
