//! Declarations, what is made of them, and how that is listed.

use path_code::{Code, listing, translate};
use path_decl::Decl;
use path_lex::DeclFault;
use path_model::OutOfMemory;
use path_read::read;
use path_trim::{Lean, lean_listing, trim};
use std::alloc::{Allocator, Global};
use std::process::Abort;

pub(crate) const BOOK: &str =
    "resource book cell operation read, write path { read } , write end end";

pub(crate) const LONE: &str = "resource r cell operation a path { a } end end";

pub(crate) const CROSS: &str = "resource r cell operation a, b path { a ; b } end end";

pub(crate) const POOL: &str =
    "resource r cell operation read, write path { read : 2 } , write end end";

pub(crate) const PIPE: &str = "resource r cell operation a, b path { a ; b : 2 } end end";

/// What is listed of a declaration.
#[derive(Clone, Copy)]
pub(crate) enum Listed {
    /// Its code.
    Code,
    /// What trimming leaves of its code.
    Lean,
}

/// The declaration of a well-formed text. Fails only if allocation fails.
pub(crate) fn read_by<A: Allocator + Copy>(
    rt: &impl Abort,
    alloc: A,
    text: &str,
) -> Result<Decl<A>, OutOfMemory> {
    match read(alloc, text.as_bytes()) {
        Ok(decl) => Ok(decl),
        Err(fault) => {
            assert_eq!(rt; fault, DeclFault::OutOfMemory);
            Err(OutOfMemory)
        }
    }
}

/// The declaration of a well-formed text.
pub(crate) fn declared(rt: &impl Abort, heap: Global, text: &str) -> Decl {
    match read_by(rt, heap, text) {
        Ok(decl) => decl,
        Err(OutOfMemory) => panic!(rt; "out of memory at {text:?}"),
    }
}

/// The code of a declaration.
pub(crate) fn translated<'d>(rt: &impl Abort, heap: Global, decl: &'d Decl) -> Code<'d> {
    match translate(heap, decl) {
        Ok(code) => code,
        Err(OutOfMemory) => panic!(rt; "out of memory"),
    }
}

/// The listing of code, with the names of a declaration.
pub(crate) fn listed_code<A: Allocator + Copy>(
    rt: &impl Abort,
    heap: Global,
    names: &Decl<A>,
    code: &Code<'_, A>,
) -> String {
    match listing(heap, names, code) {
        Ok(text) => text,
        Err(OutOfMemory) => panic!(rt; "out of memory"),
    }
}

/// What trimming leaves of a declaration's code.
pub(crate) fn trimmed(rt: &impl Abort, heap: Global, decl: &Decl) -> Lean {
    match trim(heap, translated(rt, heap, decl)) {
        Ok(lean) => lean,
        Err((_, OutOfMemory)) => panic!(rt; "out of memory"),
    }
}

// The listing of what trimming left, with the names of a declaration.
fn listed_lean(rt: &impl Abort, heap: Global, names: &Decl, lean: &Lean) -> String {
    match lean_listing(heap, names, lean) {
        Ok(text) => text,
        Err(OutOfMemory) => panic!(rt; "out of memory"),
    }
}

// The listing of a declaration, with the names of another one.
fn listed_with(rt: &impl Abort, heap: Global, what: Listed, decl: &Decl, names: &Decl) -> String {
    match what {
        Listed::Code => {
            let code = translated(rt, heap, decl);
            let text = listed_code(rt, heap, names, &code);
            drop(code);
            text
        }
        Listed::Lean => {
            let lean = trimmed(rt, heap, decl);
            let text = listed_lean(rt, heap, names, &lean);
            drop(lean);
            text
        }
    }
}

/// The listing of a text.
pub(crate) fn list_text(rt: &impl Abort, heap: Global, what: Listed, text: &str) -> String {
    let decl = declared(rt, heap, text);
    let listed = listed_with(rt, heap, what, &decl, &decl);
    drop(decl);
    listed
}

/// Checks that this text was written.
pub(crate) fn expect_text(rt: &impl Abort, text: &str, want: &str) {
    assert_eq!(rt; text, want);
}

/// Checks that each text has the listing of its row.
pub(crate) fn lists(rt: &impl Abort, heap: Global, what: Listed, rows: &[(&str, &str)]) {
    for (text, want) in rows {
        let listed = list_text(rt, heap, what, text);
        expect_text(rt, &listed, want);
    }
}

/// Checks the listing of the one text with the names of the other.
pub(crate) fn lists_with(
    rt: &impl Abort,
    heap: Global,
    what: Listed,
    text: &str,
    names: &str,
    want: &str,
) {
    let decl = declared(rt, heap, text);
    let names = declared(rt, heap, names);
    let listed = listed_with(rt, heap, what, &decl, &names);
    drop(decl);
    drop(names);
    expect_text(rt, &listed, want);
}
