//! The verdict on a text.

use path_audit::{AuditFault, Verdict, audit};
use path_decl::Decl;
use path_journal::read_journal;
use path_lines::TextFault;
use path_model::OutOfMemory;
use path_read::read;
use std::alloc::{Allocator, Global};
use std::process::Abort;

/// One resource, in which every deposit is followed by a remove.
pub(crate) const SLOT: &[u8] =
    b"resource slot cell operation deposit, remove path deposit ; remove end end";

/// A deposit of 7 and its removal, with an attempt to remove too early.
pub(crate) const DEPOSITED: &str =
    "1 start deposit: started 0\n2 start remove: blocked 0\n1 use 0 put 7: used 0\n\
    1 finish 0: finished\n2 start remove: started 1\n2 use 1 look: used 7\n";

/// Why there is no verdict.
#[derive(Clone, Copy, Debug, PartialEq, Eq)]
pub(crate) enum Refusal {
    Text(TextFault),
    Audit(AuditFault),
}

/// The declaration in a text.
pub(crate) fn declared(rt: &impl Abort, heap: Global, text: &[u8]) -> Decl {
    read(heap, text).expect(rt, "it is a declaration")
}

/// One resource that opens with these numbers.
pub(crate) fn opening<A: Allocator + Copy>(
    alloc: A,
    numbers: &[u64],
) -> Result<Vec<Vec<u64, A>, A>, OutOfMemory> {
    let mut openings = Vec::new(alloc);
    openings.push(numbers.to_vec(alloc)?)?;
    Ok(openings)
}

/// The same, when there is enough memory.
pub(crate) fn opened(rt: &impl Abort, heap: Global, numbers: &[u64]) -> Vec<Vec<u64>> {
    opening(heap, numbers).expect(rt, "enough memory")
}

/// The verdict on a text of a journal, in the room that it names, or else in this one.
pub(crate) fn verdict<A: Allocator + Copy>(
    alloc: A,
    decl: &Decl<A>,
    room: u32,
    openings: &[Vec<u64, A>],
    text: &str,
) -> Result<Verdict, Refusal> {
    let journal = match read_journal(alloc, decl, text.as_bytes()) {
        Ok(journal) => journal,
        Err(fault) => return Err(Refusal::Text(fault)),
    };
    let room = journal.room.unwrap_or(room);
    let found = audit(alloc, decl, room, openings, &journal.lines);
    drop(journal);
    match found {
        Ok(found) => Ok(found),
        Err(fault) => Err(Refusal::Audit(fault)),
    }
}
