//! Traces over devices that a caller brings: one up to the end of its room, and rooms that no journal has.

use crate::tests::traces::endings::{Ending, check_ending};
use cmd_trace::{ROOM, trace_to};
use path_decl::{Decl, counts};
use path_lex::DeclFault;
use path_model::MOST_LINES;
use path_read::read;
use path_shelf::Cell;
use std::alloc::{Allocator, Global};
use std::io::Write;
use std::process::Abort;
use tell_base::Status;

pub(crate) const SLOT: &str =
    "resource slot cell operation deposit, remove path deposit ; remove end end";

// A cell for each resource.
fn cells_for<A: Allocator + Copy>(alloc: A, decl: &Decl<A>) -> Result<Vec<Cell, A>, DeclFault> {
    let mut cells = Vec::new(alloc);
    for _ in 0..counts(decl).resources {
        cells.push(Cell::new(0))?;
    }
    Ok(cells)
}

// Traces the attempts over cells into the writers; fails if there is no memory for the declaration or the cells.
pub(crate) fn try_trace<A: Allocator + Copy, O: Write, E: Write>(
    alloc: A,
    declaration: &str,
    room: u32,
    attempts: &str,
    out: &mut O,
    err: &mut E,
) -> Result<Status, DeclFault> {
    let attempts = attempts.as_bytes();
    let decl = read(alloc, declaration.as_bytes())?;
    match cells_for(alloc, &decl) {
        Ok(cells) => Ok(trace_to(alloc, decl, cells, room, false, attempts, out, err)),
        Err(fault) => {
            drop(decl);
            Err(fault)
        }
    }
}

// Checks that a trace of the attempts over cells in this room ends this way.
fn check_trace(
    rt: &impl Abort,
    heap: Global,
    declaration: &str,
    room: u32,
    attempts: &str,
    want: Ending<'_>,
) {
    let mut out = Vec::new(heap);
    let mut err = Vec::new(heap);
    let tried = try_trace(heap, declaration, room, attempts, &mut out, &mut err);
    let status = tried.expect(rt, "it is a declaration");
    check_ending(rt, attempts, (status, &out, &err), want);
}

pub(crate) const SLOT_ATTEMPTS: &str =
    "1 start deposit\n2 start remove\n1 use 0 put 7\n1 finish 0\n2 start remove\n2 use 1 look\n";

pub(crate) const SLOT_TRACE: &str =
    "1 start deposit: started 0\n2 start remove: blocked 0\n1 use 0 put 7: used 0\n\
     1 finish 0: finished\n2 start remove: started 1\n2 use 1 look: used 7\n";

fn put(rt: &impl Abort, text: &mut String, piece: &str) {
    assert!(rt; text.push_str(piece).is_ok());
}

// A start, uses of nothing up to the end of the room and one line past it, and two finishes of the activation.
fn attempts_past_the_room(rt: &impl Abort, heap: Global) -> String {
    let mut text = String::new(heap);
    put(rt, &mut text, "1 start deposit\n");
    for _line in 1..4097u32 {
        put(rt, &mut text, "1 use 5 look\n");
    }
    put(rt, &mut text, "1 finish 0\n1 finish 0\n");
    text
}

fn answers_past_the_room(rt: &impl Abort, heap: Global) -> String {
    let mut text = String::new(heap);
    put(rt, &mut text, "1 start deposit: started 0\n");
    for line in 1..4097u32 {
        put(rt, &mut text, "1 use 5 look: ");
        put(
            rt,
            &mut text,
            if line < 4095 { "stale\n" } else { "no room\n" },
        );
    }
    put(rt, &mut text, "1 finish 0: finished\n1 finish 0: no room\n");
    text
}

// The last lines of the room get replies; past it nothing has room except the finish of the live activation.
#[test]
fn room_ends(rt: HostRuntime) {
    let attempts = attempts_past_the_room(&rt, rt.alloc());
    let want = answers_past_the_room(&rt, rt.alloc());
    let hint = "hint: attempts without room: 3; --room 8198 has room for all\n";
    check_trace(
        &rt,
        rt.alloc(),
        SLOT,
        ROOM,
        &attempts,
        (Status::Done, &want, hint),
    );
}

const BAD_FIRST_LINE: Ending<'static> = (Status::TextRefused, "", "text: bad line 0\n");

/// A room, attempts, and how their trace over the slot ends in that room.
type Roomed<'a> = (u32, &'a str, Ending<'a>);

fn check_traces(rt: &impl Abort, heap: Global, rows: &[Roomed<'_>]) {
    for (room, attempts, want) in rows {
        check_trace(rt, heap, SLOT, *room, attempts, *want);
    }
}

const BAD_ROOM: Ending<'static> = (Status::CommandRefused, "", "open: bad room\n");

// Rooms out of range, with a good text and with a bad one, which counts first.
const BAD_ROOMS: &[Roomed<'static>] = &[
    (0, "1 start deposit", BAD_ROOM),
    (0, "1 start #0", BAD_FIRST_LINE),
    (MOST_LINES + 1, "1 start deposit", BAD_ROOM),
    (MOST_LINES + 1, "1 start #0", BAD_FIRST_LINE),
    (u32::MAX, "1 start deposit", BAD_ROOM),
    (u32::MAX, "1 start #0", BAD_FIRST_LINE),
];

#[test]
fn bad_rooms(rt: HostRuntime) {
    check_traces(&rt, rt.alloc(), BAD_ROOMS);
}
