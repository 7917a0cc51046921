//! How an explanation ends.

use cmd_audit::JournalFile;
use cmd_explain::{
    FileNames, explain_attempts, explain_behind, explain_declaration, explain_journal,
};
use path_model::OutOfMemory;
use std::alloc::{Allocator, Global};
use std::io::Write;
use std::process::Abort;
use tell_base::{Fault, Status, tell};

/// What is explained under a declaration.
#[derive(Clone, Copy, Debug)]
pub enum Asked {
    /// The declaration itself.
    Declaration,
    /// Attempts, in a journal of this room.
    Attempts(u32, &'static str),
    /// A journal, of this room if its text names none.
    Journal(u32, &'static str),
    /// Attempts behind the journal in files of these names and texts, of this room if the first names none.
    Behind(u32, &'static [(&'static str, &'static str)], &'static str),
}

/// A declaration; what is explained under it; and how that ends: its status, its output, and its standard error. The declaration is the
/// file `decl`, and what is explained is the file `tries`.
pub type Row = (&'static str, Asked, Status, &'static str, &'static str);

/// The files of a journal.
fn listed<A: Allocator + Copy>(
    alloc: A,
    files: &[(&str, &str)],
) -> Result<Vec<JournalFile<A>, A>, OutOfMemory> {
    let mut list = Vec::new(alloc);
    for (name, text) in files {
        let mut bytes = Vec::new(alloc);
        bytes.extend_from_slice(text.as_bytes())?;
        let name = format!(in alloc; "{name}")?;
        list.push(JournalFile { name, text: bytes })?;
    }
    Ok(list)
}

/// How the explanation of a row ends.
pub fn ends<A: Allocator + Copy, O: Write, E: Write>(
    alloc: A,
    row: &Row,
    out: &mut O,
    err: &mut E,
) -> Status {
    let declaration = row.0.as_bytes();
    let names = FileNames {
        declaration: "decl",
        text: "tries",
    };
    match row.1 {
        Asked::Declaration => explain_declaration(alloc, declaration, names, out, err),
        Asked::Attempts(room, text) => {
            explain_attempts(alloc, declaration, room, text.as_bytes(), names, out, err)
        }
        Asked::Journal(room, text) => {
            explain_journal(alloc, declaration, room, text.as_bytes(), names, out, err)
        }
        Asked::Behind(room, files, text) => match listed(alloc, files) {
            Ok(journal) => {
                let attempts = text.as_bytes();
                explain_behind(
                    alloc,
                    declaration,
                    room,
                    &journal,
                    attempts,
                    names,
                    out,
                    err,
                )
            }
            Err(_) => tell(err, Fault::OutOfMemory),
        },
    }
}

/// Checks that the explanation of a row ended as it says.
pub fn check_ending(rt: &impl Abort, row: &Row, status: Status, out: &[u8], err: &[u8]) {
    let want = (row.2, row.3.as_bytes(), row.4.as_bytes());
    assert_eq!(rt; (status, out, err), want, "for {:?}", row.1);
}
