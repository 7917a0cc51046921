//! Scripts of many rounds.

use crate::tests::running::own::{
    BOOK, Case, ROOM, SLOT, closed, contents_in, ran, started, system_in, unblocked,
};
use path_model::{Line, Reply};
use path_run::End;
use path_shelf::{Cell, Device, Queue};
use path_system::System;
use std::alloc::Global;
use std::process::Abort;
use std::sync::Wait;
use std::thread::Threads;

/// A queue of two, which two puts fill and two gets empty in turn.
const BUFFER: &[u8] = b"resource buf queue 2 operation put0, put1, get0, get1
path put0 ; put1 end path get0 ; get1 end path put0 ; get0 end path put1 ; get1 end end";

/// The numbers at the first two places of a device.
type Contents = [Option<u64>; 2];

/// How many lines of the worker are uses that got this number.
fn used(journal: &[Line], worker: u32, number: u64) -> usize {
    journal
        .iter()
        .filter(|line| line.worker == worker && line.reply == Reply::Used(number))
        .count()
}

/// Appends the piece to the text.
fn put(rt: &impl Abort, text: &mut Vec<u8>, piece: &[u8]) {
    assert!(rt; text.extend_from_slice(piece).is_ok(), "enough memory");
}

/// Adds a process to the text, which takes the steps in each of these rounds.
fn add_process(rt: &impl Abort, text: &mut Vec<u8>, steps: &[u8], rounds: u32) {
    put(rt, text, b"process p\n");
    for _ in 0..rounds {
        put(rt, text, steps);
    }
    put(rt, text, b"end\n");
}

/// A script of processes, each of which takes these steps in each of so many rounds.
fn script(rt: &impl Abort, alloc: Global, processes: &[&[u8]], rounds: u32) -> Vec<u8> {
    let mut text = Vec::new(alloc);
    for steps in processes {
        add_process(rt, &mut text, steps, rounds);
    }
    text
}

/// A script of processes, each of which takes its steps in each of so many rounds, over a new system of this declaration.
#[derive(Clone, Copy)]
struct Rounds<'a> {
    declaration: &'a [u8],
    processes: &'a [&'a [u8]],
    count: u32,
}

/// The system that a run over this device leaves, if these are the ends.
fn left_by<D: Device + Send, R: Threads + Wait + Abort + Sync>(
    rt: &R,
    alloc: Global,
    rounds: Rounds<'_>,
    device: D,
    ends: &[End],
) -> System<D> {
    let text = script(rt, alloc, rounds.processes, rounds.count);
    let case = Case {
        declaration: rounds.declaration,
        room: ROOM,
        script: text.as_slice(),
    };
    system_in(rt, ran(rt, alloc, case, device), ends)
}

/// The journal of a run over this device, if all processes are done and the device contains these numbers then.
fn journal_of_rounds<D: Device + Send, R: Threads + Wait + Abort + Sync>(
    rt: &R,
    alloc: Global,
    rounds: Rounds<'_>,
    device: D,
    want: Contents,
) -> Vec<Line> {
    let ends = [End::Done; 4];
    let system = left_by(
        rt,
        alloc,
        rounds,
        device,
        &ends[..rounds.processes.len().min(4)],
    );
    assert_eq!(rt; contents_in(rt, &system), want);
    closed(rt, system)
}

/// Checks how many starts were admitted, and how many lines there are besides those of blocked starts.
fn expect_lines(rt: &impl Abort, journal: &[Line], starts: usize, lines: usize) {
    assert_eq!(rt; started(journal), starts);
    assert_eq!(rt; unblocked(journal), lines);
}

const PRODUCER: &[u8] = b"enter deposit\nuse put 7\nleave\n";

const CONSUMER: &[u8] = b"enter remove\nuse look\nleave\n";

#[test]
fn run_slot(rt: HostRuntime) {
    let rounds = Rounds {
        declaration: SLOT,
        processes: &[PRODUCER, CONSUMER],
        count: 100,
    };
    let journal = journal_of_rounds(&rt, rt.alloc(), rounds, Cell::new(0), [Some(7), None]);
    expect_lines(&rt, &journal, 200, 600);
    assert_eq!(&rt; used(&journal, 1, 7), 100);
    assert_eq!(&rt; used(&journal, 1, 0), 0);
}

const BOTH: &[u8] = b"enter deposit\nleave\nenter remove\nleave\n";

/// One process takes 1,200 steps, and then the 4,096 steps that a script may have.
#[test]
fn run_many_steps(rt: HostRuntime) {
    for count in [300u32, 1024] {
        let rounds = Rounds {
            declaration: SLOT,
            processes: &[BOTH],
            count,
        };
        let journal = journal_of_rounds(&rt, rt.alloc(), rounds, Cell::new(0), [Some(0), None]);
        assert_eq!(&rt; journal.len(), 4 * count as usize);
        expect_lines(&rt, &journal, 2 * count as usize, 4 * count as usize);
    }
}

const FILLER: &[u8] = b"enter put0\nuse put 5\nleave\nenter put1\nuse put 6\nleave\n";

const EMPTIER: &[u8] = b"enter get0\nuse take\nleave\nenter get1\nuse take\nleave\n";

/// An empty queue of two.
fn empty_queue(rt: &impl Abort, alloc: Global) -> Queue {
    Queue::new(alloc, 2).expect(rt, "enough memory")
}

/// The numbers that this process got, in order.
fn taken(rt: &impl Abort, alloc: Global, journal: &[Line], worker: u32) -> Vec<u64> {
    let mut numbers = Vec::new(alloc);
    for line in journal {
        if let Reply::Used(number) = line.reply {
            if line.worker == worker {
                assert!(rt; numbers.push(number).is_ok());
            }
        }
    }
    numbers
}

/// Checks that the numbers are 5 and 6 in turn.
fn expect_in_turn(rt: &impl Abort, numbers: &[u64]) {
    for (place, number) in numbers.iter().enumerate() {
        assert_eq!(rt; *number, 5 + place as u64 % 2);
    }
}

/// Each take of `get0` gets what `put0` put, and each of `get1` what `put1` put.
#[test]
fn run_bounded_buffer(rt: HostRuntime) {
    let rounds = Rounds {
        declaration: BUFFER,
        processes: &[FILLER, EMPTIER],
        count: 50,
    };
    let queue = empty_queue(&rt, rt.alloc());
    let journal = journal_of_rounds(&rt, rt.alloc(), rounds, queue, [None, None]);
    expect_lines(&rt, &journal, 200, 600);
    assert_eq!(&rt; used(&journal, 1, 5), 50);
    assert_eq!(&rt; used(&journal, 1, 6), 50);
    expect_in_turn(&rt, &taken(&rt, rt.alloc(), &journal, 1));
}

const PUT_0: &[u8] = b"enter put0\nuse put 5\nleave\n";

const PUT_1: &[u8] = b"enter put1\nuse put 6\nleave\n";

const GET_0: &[u8] = b"enter get0\nuse take\nleave\n";

const GET_1: &[u8] = b"enter get1\nuse take\nleave\n";

/// The consumer of the first place takes what the producer of the first place put, and that of the second what the second put.
#[test]
fn run_bounded_buffer_of_four(rt: HostRuntime) {
    let rounds = Rounds {
        declaration: BUFFER,
        processes: &[PUT_0, PUT_1, GET_0, GET_1],
        count: 25,
    };
    let queue = empty_queue(&rt, rt.alloc());
    let journal = journal_of_rounds(&rt, rt.alloc(), rounds, queue, [None, None]);
    expect_lines(&rt, &journal, 100, 300);
    assert_eq!(&rt; used(&journal, 2, 5), 25);
    assert_eq!(&rt; used(&journal, 3, 6), 25);
}

const READER: &[u8] = b"enter read\nuse look\nleave\n";

const WRITER: &[u8] = b"enter write\nuse put 3\nleave\n";

#[test]
fn run_readers_and_writers(rt: HostRuntime) {
    let rounds = Rounds {
        declaration: BOOK,
        processes: &[READER, READER, WRITER],
        count: 50,
    };
    let journal = journal_of_rounds(&rt, rt.alloc(), rounds, Cell::new(0), [Some(3), None]);
    expect_lines(&rt, &journal, 150, 450);
}
