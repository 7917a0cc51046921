//! How follows end.

use crate::tests::follows::readers::Pieces;
use cmd_follow::follow_bytes;
use std::alloc::{Allocator, Global};
use std::io::Read;
use std::process::Abort;
use tell_base::Status;
use test_support::{Refusing, in_bytes, refuse_in_turn};

/// The room of all follows but one.
pub(crate) const ROOM: u32 = 100;

/// A declaration whose deposits and removals alternate.
pub(crate) const SLOT: &str =
    "resource slot cell operation deposit, remove path deposit ; remove end end";

/// How a call ends: its status, its output, and its standard error.
pub(crate) type Ending<'a> = test_support::Ending<'a, Status>;

/// The name of a row, a declaration, a room and an input, and how their follow ends.
pub(crate) type Row<'a> = (&'a str, (&'a str, u32, &'a str), Ending<'a>);

/// Checks that a follow of what this reader gives ends so.
pub(crate) fn check_follow<R: Read>(
    rt: &impl Abort,
    heap: Global,
    declaration: &str,
    input: &mut R,
    want: Ending<'_>,
) {
    let mut out = Vec::new(heap);
    let mut err = Vec::new(heap);
    let status = follow_bytes(
        heap,
        declaration.as_bytes(),
        ROOM,
        input,
        &mut out,
        &mut err,
    );
    assert_eq!(rt; (status, out.as_slice(), err.as_slice()), in_bytes(want));
}

// Whether this is a front of what standard error was to be, at whose end the place of a refused line is left out.
fn is_short(err: &[u8], want: &str) -> bool {
    err.len() < want.len() && err.ends_with(b"\n") && want.as_bytes().starts_with(err)
}

// Whether a follow passed, and so ended this way; fails if memory ran out, when whole answers were written, or only a place wasn't told.
fn follows<A: Allocator + Copy>(
    rt: &impl Abort,
    alloc: A,
    heap: Global,
    row: &Row<'_>,
    most: usize,
) -> Result<bool, Status> {
    let (declaration, room, input) = row.1;
    let mut input = Pieces::new(input.as_bytes(), most);
    let mut out = Vec::new(heap);
    let mut err = Vec::new(heap);
    let status = follow_bytes(
        alloc,
        declaration.as_bytes(),
        room,
        &mut input,
        &mut out,
        &mut err,
    );
    if status == Status::NoMemory {
        let is_front = row.2.1.as_bytes().starts_with(&out);
        let is_whole = out.is_empty() || out.ends_with(b"\n");
        assert!(rt;
            is_front && is_whole && err.ends_with(b"out of memory\n"),
            "{}",
            row.0
        );
        return Err(status);
    }
    if status == row.2.0 && out.as_slice() == row.2.1.as_bytes() && is_short(&err, row.2.2) {
        return Err(Status::NoMemory);
    }
    let ended = (status, out.as_slice(), err.as_slice());
    assert_eq!(rt; ended, in_bytes(row.2), "{}", row.0);
    Ok(true)
}

// Checks that a follow ends as its row says, in pieces of this many bytes.
fn check_pieces(rt: &impl Abort, heap: Global, row: &Row<'_>, most: usize) {
    let passed = follows(rt, heap, heap, row, most);
    assert!(rt; passed == Ok(true), "{}", row.0);
}

/// Checks that each follow ends as its row says, whether its input comes a byte at a time, in pieces of 7, or as a whole.
pub(crate) fn check_all(rt: &impl Abort, heap: Global, rows: &[Row<'_>]) {
    for row in rows {
        check_pieces(rt, heap, row, 1);
        check_pieces(rt, heap, row, 7);
        check_pieces(rt, heap, row, 1000);
    }
}

/// Refuses each request of a follow in turn; then it must end as its row says.
pub(crate) fn refuse_each_request(rt: &impl Abort, heap: Global, row: &Row<'_>) {
    let refused = refuse_in_turn(heap, Status::NoMemory, |refusing: &Refusing<Global>| {
        follows(rt, refusing, heap, row, 7)
    });
    assert_eq!(rt; refused, Ok(()));
}
