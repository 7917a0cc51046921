//! Faults of texts, told with their place.

ghost use Rattle.std.specs.Prelude.{◌≡◌, ◌⊎◌};
ghost use Rattle.tell_base.specs.Statuses.{status_of};

use path_decl::Decl;
use path_lex::DeclFault;
use path_lines::TextFault;
use path_read::read;
use std::alloc::Allocator;
use std::io::Write;
use tell_base::{Fault, Status, tell};
use tell_places::{Finding, TextKind, declaration_finding, push_finding, text_finding};

/// What the files are called where a fault of theirs is told.
#[derive(Clone, Copy)]
pub struct FileNames<'a> {
    /// The file of the declaration.
    pub declaration: &'a str,
    /// The file of the attempts, or of the journal.
    pub text: &'a str,
}

/// What is explained under a declaration.
#[derive(Clone, Copy)]
pub enum Subject<'a> {
    /// The declaration itself.
    Declaration,
    /// A text of this kind.
    Text(TextKind, &'a [u8]),
}

/// The lines of a finding; `None` if there is no memory for them.
fn lines_of<A: Allocator + Copy>(
    alloc: A,
    name: &str,
    finding: &Finding<'_, A>,
) -> Option<String<A>> {
    let mut lines = String::new(alloc);
    push_finding(&mut lines, name, finding).ok()?;
    Some(lines)
}

/// Where the declaration has this fault, in lines; `None` if there is no memory for them.
fn declaration_place<A: Allocator + Copy>(
    alloc: A,
    name: &str,
    declaration: &[u8],
    fault: DeclFault,
) -> Option<String<A>> {
    let finding = declaration_finding(alloc, declaration, fault).ok()??;
    lines_of(alloc, name, &finding)
}

/// Where a text under this declaration has this fault, in lines; `None` if there is no memory for them.
fn place_under<A: Allocator + Copy>(
    alloc: A,
    name: &str,
    decl: &Decl<A>,
    kind: TextKind,
    text: &[u8],
    fault: TextFault,
) -> Option<String<A>> {
    let finding = text_finding(alloc, decl, kind, text, fault).ok()??;
    lines_of(alloc, name, &finding)
}

/// Where the text under a declaration has this fault, in lines; `None` if there is no memory for them. Reads the declaration once more.
fn text_place<A: Allocator + Copy>(
    alloc: A,
    name: &str,
    declaration: &[u8],
    subject: Subject<'_>,
    fault: TextFault,
) -> Option<String<A>> {
    let Subject::Text(kind, text) = subject else {
        return None;
    };
    let decl = read(alloc, declaration).ok()?;
    place_under(alloc, name, &decl, kind, text, fault)
}

/// Tells a fault on `err`: that of a text with its place, as [`push_finding`] does, and any other in one line, as that of a text if there
/// is no memory for more. Returns the fault's status, or `StreamFailed` if that can't be written.
pub fn tell_place<A: Allocator + Copy, E: Write>(
    alloc: A,
    names: FileNames<'_>,
    declaration: &[u8],
    subject: Subject<'_>,
    fault: Fault<'static>,
    err: &mut E,
) -> Status
    ensures { (result ≡ status_of fault.entry) ⊎ (result ≡ Status.StreamFailed) }
{
    let place = match fault {
        Fault::Declaration(fault) => declaration_place(
            alloc,
            names.declaration,
            declaration,
            fault,
        ),
        Fault::Text(fault) => text_place(alloc, names.text, declaration, subject, fault),
        _ => None,
    };
    match place {
        Some(lines) => match write!(err, "{lines}") {
            Ok(()) => fault.status(),
            Err(_) => Status::StreamFailed,
        },
        None => tell(err, fault),
    }
}
