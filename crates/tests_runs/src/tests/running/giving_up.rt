//! A process that gives up finishes all that it has entered, the last first.

use crate::tests::running::own::{Case, PAIR, ROOM, closed, ran_over, system_in};
use path_model::{ActId, Attempt, Line, OpId, Reply, Verb};
use path_run::{AlwaysOpen, End, Turnstile};
use path_shelf::Cell;
use std::alloc::Global;
use std::process::Abort;
use std::sync::Wait;
use std::thread::Threads;

/// One process, which enters both operations, and then takes from a cell, which offers no such use.
const NESTED: &[u8] = b"process p\nenter a\nenter b\nuse take\nleave\nleave\nend\n";

/// A line of process 0.
const fn line(attempt: Attempt, reply: Reply) -> Line {
    Line {
        worker: 0,
        attempt,
        reply,
    }
}

/// The journal of the process through a turnstile, in this room, if it ends so and leaves nothing live.
fn given_up<T: Turnstile, R: Threads + Wait + Abort + Sync>(
    rt: &R,
    alloc: Global,
    room: u32,
    turnstile: &T,
    end: End,
) -> Vec<Line> {
    let case = Case {
        declaration: PAIR,
        room,
        script: NESTED,
    };
    let outcome = ran_over(rt, alloc, case, Cell::new(0), turnstile);
    closed(rt, system_in(rt, outcome, &[end]))
}

/// Checks that the lines begin with the two starts, and end with the two finishes, the last entered first. Between them are so many.
fn expect_both_finished(rt: &impl Abort, journal: &[Line], between: usize) {
    assert_eq!(rt; journal.len(), between.saturating_add(4));
    let wanted = [
        line(Attempt::Start(OpId(0)), Reply::Started(ActId(0))),
        line(Attempt::Start(OpId(1)), Reply::Started(ActId(1))),
        line(Attempt::Finish(ActId(1)), Reply::Finished),
        line(Attempt::Finish(ActId(0)), Reply::Finished),
    ];
    assert!(rt; journal.starts_with(&wanted[..2]));
    assert!(rt; journal.ends_with(&wanted[2..]));
}

#[test]
fn both_are_finished_after_a_fault(rt: HostRuntime) {
    let end = End::Faulted(Reply::NotOffered);
    let journal = given_up(&rt, rt.alloc(), ROOM, &AlwaysOpen, end);
    expect_both_finished(&rt, &journal, 1);
    let take = Attempt::Apply(ActId(1), Verb::Take);
    assert!(&rt; journal.get(2) == Some(&line(take, Reply::NotOffered)));
}

/// Two starts fill a room of four lines, since the places of their finishes are kept.
#[test]
fn both_are_finished_without_room(rt: HostRuntime) {
    let journal = given_up(&rt, rt.alloc(), 4, &AlwaysOpen, End::NoRoom);
    expect_both_finished(&rt, &journal, 0);
}

/// Refuses the step of this number.
#[derive(Drop)]
struct StopsAt(u32);

impl Turnstile for StopsAt {
    fn before(&self, _worker: u32, step: u32) -> bool {
        step != self.0
    }
}

#[test]
fn both_are_finished_when_stopped(rt: HostRuntime) {
    let journal = given_up(&rt, rt.alloc(), ROOM, &StopsAt(2), End::Stopped);
    expect_both_finished(&rt, &journal, 0);
}
