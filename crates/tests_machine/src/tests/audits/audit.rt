//! Verdicts on journals.

use crate::tests::audits::verdict::{DEPOSITED, Refusal, SLOT, declared, opened, verdict};
use path_audit::{AuditFault, Verdict, audit};
use path_decl::Decl;
use path_lines::TextFault;
use path_model::ResId;
use std::alloc::Global;
use std::process::Abort;

const QUEUE: &[u8] = b"resource q queue 2 operation a end";

const TALLY: &[u8] = b"resource t tally operation a end";

type Judged = (&'static str, u32, Result<Verdict, Refusal>);

// Checks that each text has this verdict in this room, if it names no other.
fn check_verdicts(
    rt: &impl Abort,
    heap: Global,
    decl: &Decl,
    openings: &[Vec<u64>],
    rows: &[Judged],
) {
    for (text, room, want) in rows {
        let found = verdict(heap, decl, *room, openings, text);
        assert_eq!(rt; found, *want, "{text}");
    }
}

// The same if the one resource of this declaration opens with these numbers.
fn check_verdicts_of(
    rt: &impl Abort,
    heap: Global,
    declaration: &[u8],
    numbers: &[u64],
    rows: &[Judged],
) {
    let decl = declared(rt, heap, declaration);
    let openings = opened(rt, heap, numbers);
    check_verdicts(rt, heap, &decl, &openings, rows);
    drop(openings);
    drop(decl);
}

/// Journals of the slot.
const ROWS: [Judged; 18] = [
    ("", 1, Ok(Verdict::Sound)),
    (DEPOSITED, 4096, Ok(Verdict::Sound)),
    (DEPOSITED, 1_048_576, Ok(Verdict::Sound)),
    (DEPOSITED, 7, Ok(Verdict::Sound)),
    (DEPOSITED, 6, Ok(Verdict::WrongLine(5))),
    (DEPOSITED, 5, Ok(Verdict::WrongLine(4))),
    (
        "1 start deposit: started 0\n2 start remove: started 1\n1 use 0 put 7: used 0\n\
        1 finish 0: finished\n2 start remove: started 1\n2 use 1 look: used 7\n",
        4096,
        Ok(Verdict::WrongLine(1)),
    ),
    (
        "1 start deposit: started 0\n2 start remove: blocked 0\n1 use 0 put 7: device failed\n\
        1 finish 0: finished\n2 start remove: started 1\n2 use 1 look: used 7\n",
        4096,
        Ok(Verdict::WrongLine(5)),
    ),
    (
        "1 start deposit: started 0\n2 start remove: blocked 0\n1 use 0 put 7: device failed\n\
        1 finish 0: finished\n2 start remove: started 1\n2 use 1 look: used 0\n",
        4096,
        Ok(Verdict::Sound),
    ),
    (
        "1 start deposit: started 0\n2 start remove: blocked 0\n1 use 0 put 7: used 0\n\
        1 finish 0: finished\n2 start remove: started 1\n2 use 1 look: device failed\n",
        4096,
        Ok(Verdict::Sound),
    ),
    (
        "1 start deposit: started 0\n1 use 0 take: device failed\n",
        4096,
        Ok(Verdict::WrongLine(1)),
    ),
    (
        "1 start deposit: started 0\n1 use 0 look: used 0\n",
        2,
        Ok(Verdict::WrongLine(1)),
    ),
    ("1 start deposit: no room\n", 1, Ok(Verdict::WrongLine(0))),
    (
        "1 start deposit: started 0\n1 finish 0: finished\n",
        2,
        Ok(Verdict::Sound),
    ),
    (
        "1 start deposit: started 0\n1 finish 0: finished\n",
        1,
        Ok(Verdict::WrongLine(0)),
    ),
    (
        "1 start deposit: started 0\n1 finish 0: finished\n1 finish 0: stale\n",
        4,
        Ok(Verdict::Sound),
    ),
    (
        "1 start deposit: started 0\n2 finish 0: not yours\n1 finish 0: finished\n1 finish 0: finished\n",
        9,
        Ok(Verdict::WrongLine(3)),
    ),
    ("1 start #2: unknown operation\n", 9, Ok(Verdict::Sound)),
];

#[test]
fn audits_rows(rt: HostRuntime) {
    check_verdicts_of(&rt, rt.alloc(), SLOT, &[0], &ROWS);
}

const BAD_HEAD: Result<Verdict, Refusal> = Err(Refusal::Text(TextFault::BadLine(0)));

/// If a text names its room, the room that is given doesn't count.
const ROOMS: [Judged; 8] = [
    (
        "journal 2 room 2\n1 start deposit: started 0\n1 finish 0: finished\n",
        1,
        Ok(Verdict::Sound),
    ),
    (
        "journal 2 room 1\n1 start deposit: started 0\n1 finish 0: finished\n",
        4096,
        Ok(Verdict::WrongLine(0)),
    ),
    (
        "journal 2 room 1048576\n1 start deposit: started 0\n1 finish 0: finished",
        1,
        Ok(Verdict::Sound),
    ),
    ("journal 2 room 1", 4096, Ok(Verdict::Sound)),
    (
        "journal 2 room 1048577\n1 start deposit: started 0\n1 finish 0: finished\n",
        4096,
        BAD_HEAD,
    ),
    (
        "journal 2 room 0\n1 start deposit: started 0\n1 finish 0: finished\n",
        4096,
        BAD_HEAD,
    ),
    (
        "journal 4 room 2\n1 start deposit: started 0\n1 finish 0: finished\n",
        4096,
        BAD_HEAD,
    ),
    (
        "journal 2 room 2\n1 start deposit: started 0\n1 finish 0: started 1\n",
        4096,
        Ok(Verdict::WrongLine(1)),
    ),
];

#[test]
fn audits_in_the_room_of_the_text(rt: HostRuntime) {
    check_verdicts_of(&rt, rt.alloc(), SLOT, &[0], &ROOMS);
}

/// The largest numbers that a line can have.
const LARGEST: [Judged; 9] = [
    (
        "1 use 18446744073709551615 look: stale\n",
        9,
        Ok(Verdict::Sound),
    ),
    (
        "1 use 18446744073709551615 look: used 0\n",
        9,
        Ok(Verdict::WrongLine(0)),
    ),
    (
        "1 use 18446744073709551615 put 18446744073709551615: device failed\n",
        9,
        Ok(Verdict::WrongLine(0)),
    ),
    (
        "1 finish 18446744073709551615: stale\n",
        9,
        Ok(Verdict::Sound),
    ),
    (
        "1 finish 18446744073709551615: finished\n",
        9,
        Ok(Verdict::WrongLine(0)),
    ),
    (
        "4294967295 start #4294967295: unknown operation\n",
        9,
        Ok(Verdict::Sound),
    ),
    (
        "1 start #4294967295: started 0\n",
        9,
        Ok(Verdict::WrongLine(0)),
    ),
    (
        "1 start deposit: started 18446744073709551615\n",
        9,
        Ok(Verdict::WrongLine(0)),
    ),
    (
        "1 start remove: blocked 4294967295\n",
        9,
        Ok(Verdict::WrongLine(0)),
    ),
];

#[test]
fn audits_the_largest_numbers(rt: HostRuntime) {
    check_verdicts_of(&rt, rt.alloc(), SLOT, &[0], &LARGEST);
}

/// Journals of the queue that opens with 5.
const QUEUED: [Judged; 3] = [
    (
        "1 start a: started 0\n1 use 0 look: used 5\n1 use 0 put 6: used 2\n1 use 0 put 7: full\n1 use 0 take: used 5\n\
        1 use 0 take: used 6\n1 use 0 take: empty\n1 use 0 look: empty\n1 use 0 add 1: not offered\n",
        64,
        Ok(Verdict::Sound),
    ),
    (
        "1 start a: started 0\n1 use 0 put 6: used 2\n1 use 0 put 7: device failed\n",
        64,
        Ok(Verdict::WrongLine(2)),
    ),
    (
        "1 start a: started 0\n1 use 0 put 6: used 2\n1 use 0 take: used 6\n",
        64,
        Ok(Verdict::WrongLine(2)),
    ),
];

#[test]
fn audits_queues(rt: HostRuntime) {
    check_verdicts_of(&rt, rt.alloc(), QUEUE, &[5], &QUEUED);
}

/// Journals of the tally that opens with the largest number but one.
const TOTALLED: [Judged; 2] = [
    (
        "1 start a: started 0\n1 use 0 add 1: used 18446744073709551615\n1 use 0 add 1: overflow\n\
        1 use 0 look: used 18446744073709551615\n1 use 0 put 1: not offered\n1 use 0 take: not offered\n",
        64,
        Ok(Verdict::Sound),
    ),
    (
        "1 start a: started 0\n1 use 0 add 2: used 0\n",
        64,
        Ok(Verdict::WrongLine(1)),
    ),
];

#[test]
fn audits_tallies(rt: HostRuntime) {
    check_verdicts_of(&rt, rt.alloc(), TALLY, &[u64::MAX - 1], &TOTALLED);
}

/// A room, what the one resource opens with (`None` for no openings at all), and the result for no lines.
type Opened = (u32, Option<&'static [u64]>, Result<Verdict, AuditFault>);

const OF_SLOTS: [Opened; 9] = [
    (0, Some(&[0]), Err(AuditFault::BadRoom)),
    (1_048_577, Some(&[0]), Err(AuditFault::BadRoom)),
    (0, Some(&[1, 2]), Err(AuditFault::BadRoom)),
    (0, None, Err(AuditFault::BadRoom)),
    (4096, None, Err(AuditFault::WrongCount)),
    (4096, Some(&[1, 2]), Err(AuditFault::BadOpening(ResId(0)))),
    (4096, Some(&[]), Err(AuditFault::BadOpening(ResId(0)))),
    (1, Some(&[1]), Ok(Verdict::Sound)),
    (1_048_576, Some(&[u64::MAX]), Ok(Verdict::Sound)),
];

const OF_QUEUES: [Opened; 3] = [
    (64, Some(&[]), Ok(Verdict::Sound)),
    (64, Some(&[5, 6]), Ok(Verdict::Sound)),
    (64, Some(&[5, 6, 7]), Err(AuditFault::BadOpening(ResId(0)))),
];

const OF_TALLIES: [Opened; 2] = [
    (64, Some(&[7]), Ok(Verdict::Sound)),
    (64, Some(&[]), Err(AuditFault::BadOpening(ResId(0)))),
];

// The result for no lines.
fn found(
    heap: Global,
    decl: &Decl,
    room: u32,
    openings: &[Vec<u64>],
) -> Result<Verdict, AuditFault> {
    audit(heap, decl, room, openings, &[])
}

// The result for no lines if the one resource opens this way, or if there are no openings.
fn found_so(
    rt: &impl Abort,
    heap: Global,
    decl: &Decl,
    room: u32,
    numbers: Option<&[u64]>,
) -> Result<Verdict, AuditFault> {
    match numbers {
        Some(numbers) => {
            let openings = opened(rt, heap, numbers);
            let found = found(heap, decl, room, &openings);
            drop(openings);
            found
        }
        None => found(heap, decl, room, &[]),
    }
}

fn check_openings(rt: &impl Abort, heap: Global, decl: &Decl, rows: &[Opened]) {
    for (room, numbers, want) in rows {
        let found = found_so(rt, heap, decl, *room, *numbers);
        assert!(rt; found == *want, "{room}, {numbers:?}");
    }
}

fn check_openings_of(rt: &impl Abort, heap: Global, declaration: &[u8], rows: &[Opened]) {
    let decl = declared(rt, heap, declaration);
    check_openings(rt, heap, &decl, rows);
    drop(decl);
}

#[test]
fn refuses_rooms_and_openings(rt: HostRuntime) {
    check_openings_of(&rt, rt.alloc(), SLOT, &OF_SLOTS);
    check_openings_of(&rt, rt.alloc(), QUEUE, &OF_QUEUES);
    check_openings_of(&rt, rt.alloc(), TALLY, &OF_TALLIES);
}

const SPELLED: [(AuditFault, &str); 4] = [
    (AuditFault::BadRoom, "bad room"),
    (AuditFault::WrongCount, "wrong count"),
    (AuditFault::BadOpening(ResId(3)), "bad opening 3"),
    (AuditFault::OutOfMemory, "out of memory"),
];

// Whether a fault has this text.
fn is_spelled_so(heap: Global, fault: AuditFault, want: &str) -> bool {
    match format!(in heap; "{fault}") {
        Ok(text) => text.as_str() == want,
        Err(_) => false,
    }
}

fn check_spellings(rt: &impl Abort, heap: Global, rows: &[(AuditFault, &str)]) {
    for (fault, want) in rows {
        assert!(rt; is_spelled_so(heap, *fault, want), "at {want}");
    }
}

#[test]
fn spells_faults(rt: HostRuntime) {
    check_spellings(&rt, rt.alloc(), &SPELLED);
}
