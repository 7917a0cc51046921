//! A journal in, a verdict out.

use crate::tests::commands::commands::check_ending;
use cmd_audit::{audit_bytes, audit_to};
use path_decl::Decl;
use path_read::read;
use std::alloc::Global;
use std::process::Abort;
use tell_base::Status;

/// A room and the text of a journal, and how its audit ends: its status, its output and its standard error.
type Row = (u32, &'static str, Status, &'static str, &'static str);

const SLOT: &str = "resource slot cell operation deposit, remove path deposit ; remove end end";

const SLOT_JOURNAL: &str =
    "1 start deposit: started 0\n2 start remove: blocked 0\n1 use 0 put 7: used 0\n\
     1 finish 0: finished\n2 start remove: started 1\n2 use 1 look: used 7\n";

const FORGED: &str =
    "1 start deposit: started 0\n2 start remove: started 1\n1 use 0 put 7: used 0\n\
     1 finish 0: finished\n2 start remove: started 1\n2 use 1 look: used 7\n";

const VERDICTS: &[Row] = &[
    (4096, SLOT_JOURNAL, Status::Done, "sound\n", ""),
    (4096, FORGED, Status::Unsound, "wrong line 1\n", ""),
];

/// A journal whose text brings its room, in a room that no journal has.
const ROOMS: &[Row] = &[(
    0,
    "journal 2 room 2\n1 start deposit: started 0\n1 finish 0: finished",
    Status::Done,
    "sound\n",
    "",
)];

/// A bad line and a bad room: a fault of the text counts before the room.
const REFUSED: &[Row] = &[
    (
        0,
        "journal 2 room 2\n1 start deposit: started 0\n1 finish 0: done\n",
        Status::TextRefused,
        "",
        "text: bad line 2\n",
    ),
    (
        0,
        "1 start deposit: started 0\n1 finish 0: done\n",
        Status::TextRefused,
        "",
        "text: bad line 1\n",
    ),
    (
        0,
        SLOT_JOURNAL,
        Status::CommandRefused,
        "",
        "open: bad room\n",
    ),
    (
        1_048_577,
        FORGED,
        Status::CommandRefused,
        "",
        "open: bad room\n",
    ),
];

fn declared(rt: &impl Abort, heap: Global, text: &str) -> Decl {
    read(heap, text.as_bytes()).expect(rt, "it is a declaration")
}

// Checks that an audit of bytes ends this way.
fn check_bytes(rt: &impl Abort, heap: Global, declaration: &str, row: &Row) {
    let mut out = Vec::new(heap);
    let mut err = Vec::new(heap);
    let (declaration, journal) = (declaration.as_bytes(), row.1.as_bytes());
    let status = audit_bytes(heap, declaration, row.0, journal, &mut out, &mut err);
    check_ending(rt, row.1, (status, &out, &err), (row.2, row.3, row.4));
}

// Checks that an audit under a declaration that was read ends this way.
fn check_declared(rt: &impl Abort, heap: Global, decl: Decl, row: &Row) {
    let mut out = Vec::new(heap);
    let mut err = Vec::new(heap);
    let status = audit_to(heap, decl, row.0, row.1.as_bytes(), &mut out, &mut err);
    check_ending(rt, row.1, (status, &out, &err), (row.2, row.3, row.4));
}

// Checks both audits of each row.
fn check_all(rt: &impl Abort, heap: Global, declaration: &str, rows: &[Row]) {
    for row in rows {
        check_bytes(rt, heap, declaration, row);
        check_declared(rt, heap, declared(rt, heap, declaration), row);
    }
}

#[test]
fn audits(rt: HostRuntime) {
    check_all(&rt, rt.alloc(), SLOT, VERDICTS);
}

#[test]
fn the_text_brings_its_room(rt: HostRuntime) {
    check_all(&rt, rt.alloc(), SLOT, ROOMS);
}

/// A journal under a text that isn't a declaration.
const UNDECLARED: Row = (
    0,
    "journal 4",
    Status::DeclarationRefused,
    "",
    "declaration: bad byte at 9\n",
);

#[test]
fn the_first_cause_counts(rt: HostRuntime) {
    check_all(&rt, rt.alloc(), SLOT, REFUSED);
    check_bytes(&rt, rt.alloc(), "resource _r", &UNDECLARED);
}
