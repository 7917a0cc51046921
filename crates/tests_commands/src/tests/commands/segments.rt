//! Journals in several files, a verdict out.

use crate::tests::commands::commands::{Ending, check_ending};
use cmd_audit::{JournalFile, audit_files};
use std::alloc::Global;
use std::process::Abort;
use tell_base::Status;

const SLOT: &str = "resource slot cell operation deposit, remove path deposit ; remove end end";

/// The name and the text of a file.
type File = (&'static str, &'static str);

/// A room and files, and how their audit ends.
type Row = (u32, &'static [File], Ending<'static>);

const BEFORE: File = (
    "before",
    "1 start deposit: started 0\n1 use 0 put 7: used 0\n",
);

/// What is live goes on in the next file, and so does what the cell contains.
const BEHIND: File = (
    "behind",
    "1 finish 0: finished\n2 start remove: started 1\n2 use 1 look: used 7",
);

const BAD_ROOM: Ending<'static> = (Status::CommandRefused, "", "open: bad room\n");

const ROWS: &[Row] = &[
    (4096, &[], (Status::Done, "sound\n", "")),
    (4096, &[BEFORE, BEHIND], (Status::Done, "sound\n", "")),
    (0, &[BEFORE, BEHIND], BAD_ROOM),
    (1_048_577, &[BEFORE, BEHIND], BAD_ROOM),
];

fn listed(rt: &impl Abort, heap: Global, files: &[File]) -> Vec<JournalFile> {
    let mut list = Vec::new(heap);
    for (name, text) in files {
        let mut bytes = Vec::new(heap);
        bytes
            .extend_from_slice(text.as_bytes())
            .expect(rt, "there is memory");
        let name = format!(in heap; "{name}").expect(rt, "there is memory");
        list.push(JournalFile { name, text: bytes })
            .expect(rt, "there is memory");
    }
    list
}

// Checks that the audit of a row's files ends as it says.
fn check_row(rt: &impl Abort, heap: Global, declaration: &str, row: &Row) {
    let mut out = Vec::new(heap);
    let mut err = Vec::new(heap);
    let files = listed(rt, heap, row.1);
    let status = audit_files(
        heap,
        declaration.as_bytes(),
        row.0,
        &files,
        &mut out,
        &mut err,
    );
    check_ending(rt, declaration, (status, &out, &err), row.2);
}

#[test]
fn audits_segments(rt: HostRuntime) {
    for row in ROWS {
        check_row(&rt, rt.alloc(), SLOT, row);
    }
}
