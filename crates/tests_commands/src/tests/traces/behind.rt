//! Traces behind journals in files.

use crate::tests::traces::endings::{Ending, check_ending};
use cmd_audit::JournalFile;
use cmd_trace::{ROOM, trace_behind};
use path_model::OutOfMemory;
use std::alloc::{Allocator, Global};
use std::process::Abort;
use tell_base::Status;
use test_support::{FullWriter, Refusing, refuse_in_turn};

const SLOT: &str = "resource slot cell operation deposit, remove path deposit ; remove end end";

/// The name and the text of a file.
type File<'a> = (&'a str, &'a str);

/// What a trace is asked for: the room, the files of the journal, whether the report is wanted, and the attempts.
#[derive(Clone, Copy)]
struct Asked<'a> {
    room: u32,
    journal: &'a [File<'a>],
    report: bool,
    attempts: &'a str,
}

/// A file, in memory of this allocator.
pub(crate) fn file_of<A: Allocator + Copy>(
    alloc: A,
    name: &str,
    text: &str,
) -> Result<JournalFile<A>, OutOfMemory> {
    let mut bytes = Vec::new(alloc);
    bytes.extend_from_slice(text.as_bytes())?;
    let name = format!(in alloc; "{name}")?;
    Ok(JournalFile { name, text: bytes })
}

/// The files, in memory of this allocator.
fn listed<A: Allocator + Copy>(
    alloc: A,
    files: &[File<'_>],
) -> Result<Vec<JournalFile<A>, A>, OutOfMemory> {
    let mut list = Vec::new(alloc);
    for (name, text) in files {
        list.push(file_of(alloc, name, text)?)?;
    }
    Ok(list)
}

// Whether a trace behind these files passed, and so ended this way; fails if memory ran out, when nothing must have been written.
pub(crate) fn ends_so<A: Allocator + Copy>(
    rt: &impl Abort,
    alloc: A,
    heap: Global,
    declaration: &str,
    journal: &[JournalFile<A>],
    room: u32,
    report: bool,
    attempts: &str,
    want: Ending<'_>,
) -> Result<bool, Status> {
    let mut out = Vec::new(heap);
    let mut err = Vec::new(heap);
    let status = trace_behind(
        alloc,
        declaration.as_bytes(),
        room,
        journal,
        report,
        attempts.as_bytes(),
        &mut out,
        &mut err,
    );
    if status == Status::NoMemory {
        assert_eq!(rt; out.as_slice(), b"".as_slice());
        return Err(status);
    }
    check_ending(rt, attempts, (status, &out, &err), want);
    Ok(true)
}

// The same of what is asked for.
fn traces<A: Allocator + Copy>(
    rt: &impl Abort,
    alloc: A,
    heap: Global,
    declaration: &str,
    asked: Asked<'_>,
    want: Ending<'_>,
) -> Result<bool, Status> {
    let Ok(journal) = listed(alloc, asked.journal) else {
        return Err(Status::NoMemory);
    };
    ends_so(
        rt,
        alloc,
        heap,
        declaration,
        &journal,
        asked.room,
        asked.report,
        asked.attempts,
        want,
    )
}

const DEPOSITED: &str = "1 start deposit: started 0\n1 use 0 put 7: used 0\n";

const ONE: File<'static> = ("one", DEPOSITED);

const EMPTY: File<'static> = ("empty", "");

const LATER: &str = "1 finish 0\n2 start remove\n2 use 1 look\n";

/// A room, files, attempts, and how their trace ends.
type Row = (u32, &'static [File<'static>], &'static str, Ending<'static>);

const BAD_ROOM: Ending<'static> = (Status::CommandRefused, "", "open: bad room\n");

const BAD_ROOMS: &[Row] = &[
    (0, &[ONE], LATER, BAD_ROOM),
    (1_048_577, &[EMPTY], LATER, BAD_ROOM),
];

#[test]
fn bad_rooms(rt: HostRuntime) {
    for (room, journal, attempts, want) in BAD_ROOMS {
        let asked = Asked {
            room: *room,
            journal: *journal,
            report: true,
            attempts: *attempts,
        };
        let passed = traces(&rt, rt.alloc(), rt.alloc(), SLOT, asked, *want);
        assert!(rt; passed == Ok(true));
    }
}

const UNDER_WAY: Asked<'static> = Asked {
    room: ROOM,
    journal: &[ONE, EMPTY],
    report: true,
    attempts: "2 start remove\n",
};

const REPORTED: &str = "2 start remove: blocked 0\n\
     startable\nblocked deposit 0\nblocked remove 0\nlive 0 1 deposit\nfrozen no\n";

#[test]
fn each_request_is_refused(rt: HostRuntime) {
    let heap = rt.alloc();
    let refused = refuse_in_turn(heap, Status::NoMemory, |refusing: &Refusing<Global>| {
        traces(
            &rt,
            refusing,
            heap,
            SLOT,
            UNDER_WAY,
            (Status::Done, REPORTED, ""),
        )
    });
    assert_eq!(rt; refused, Ok(()));
}

#[test]
fn a_writer_that_takes_nothing(rt: HostRuntime) {
    let journal = listed(rt.alloc(), &[ONE]).expect(&rt, "there is memory");
    let mut err = Vec::new(rt.alloc());
    let status = trace_behind(
        rt.alloc(),
        SLOT.as_bytes(),
        ROOM,
        &journal,
        false,
        LATER.as_bytes(),
        &mut FullWriter,
        &mut err,
    );
    check_ending(
        &rt,
        "a full writer",
        (status, b"", &err),
        (Status::StreamFailed, "", "output: cannot write\n"),
    );
}
