//! Searches of all schedules and of all histories, and each with every request for memory refused in turn.

use page_answers::{Answer, SearchAnswer, explore, reach};
use std::alloc::{Allocator, Global};
use std::process::Abort;
use tell_base::Status;
use test_support::{Refusing, refuse_in_turn};

const LOCKS: &str =
    "resource a cell operation x path x end end resource b queue 1 operation y path y end end";

const SLOT: &str = "resource slot cell operation deposit, remove path deposit ; remove end end";

const READERS: &str = "resource book cell operation read, write path { read } , write end end";

/// What is looked at.
#[derive(Clone, Copy, Debug)]
enum Asked {
    /// All schedules of a script.
    Script(&'static str),
    /// All histories of a declaration, with so many workers.
    Declaration(&'static str, u32),
}

/// What is asked, how many states are looked at, how the search ends (`None` if it comes to no answer), and its two texts.
type Row = (Asked, u32, Option<Status>, &'static str, &'static str);

const ROWS: &[Row] = &[
    (
        Asked::Script("process p\nenter x\nenter y\nleave\nleave\nend\n"),
        9,
        Some(Status::Done),
        "every schedule ends done\nstates 5\n",
        "",
    ),
    (
        Asked::Script(
            "process p\nenter x\nenter y\nleave\nleave\nend\nprocess q\nenter y\nenter x\nleave\nleave\nend\n",
        ),
        99,
        Some(Status::Unsound),
        "journal 2 room 1048576\n0 start x: started 0\n1 start y: started 1\n0 start y: blocked 1\n1 start x: blocked 0\n",
        "p: stalled y\nq: stalled x\n",
    ),
    (
        Asked::Script("process p\nenter y\nuse take\nleave\nend\n"),
        99,
        Some(Status::Unsound),
        "journal 2 room 1048576\n0 start y: started 0\n0 use 0 take: empty\n",
        "p: faulted empty\n",
    ),
    (
        Asked::Script("process p\nenter x\nleave\nend\n"),
        2,
        None,
        "",
        "undecided after 2 states\n",
    ),
    (
        Asked::Declaration(SLOT, 2),
        9,
        Some(Status::Done),
        "every operation begins, the resources never all freeze\nstates 4\n",
        "",
    ),
    (
        Asked::Declaration(SLOT, 2),
        3,
        None,
        "",
        "undecided after 3 states\n",
    ),
    (
        Asked::Declaration(
            "resource r cell operation a, b, c path a , b end path b ; c end path c ; b end end",
            2,
        ),
        9,
        Some(Status::Unsound),
        "never b\nnever c\nstates 2\n",
        "",
    ),
    (
        Asked::Declaration(
            "resource r cell operation a, b, c path a ; (b , c) end path b ; c end path c ; b end end",
            2,
        ),
        9,
        Some(Status::Unsound),
        "journal 2 room 1048576\n0 start a: started 0\n0 finish 0: finished\n",
        "frozen\n",
    ),
    (
        Asked::Declaration(READERS, 1),
        99,
        Some(Status::Done),
        "every operation begins, the resources never all freeze\nstates 3\n",
        "",
    ),
    (
        Asked::Declaration(READERS, 3),
        99,
        Some(Status::Done),
        "every operation begins, the resources never all freeze\nstates 5\n",
        "",
    ),
];

/// Faults that are told with their place. Where there is no memory for that, their line alone is told.
const PLACED: &[Row] = &[
    (
        Asked::Script("process p\nenter xy\nleave\nend\n"),
        9,
        Some(Status::TextRefused),
        "",
        "script: undeclared in line 1\nscript:2:7: this isn't a declared operation\nenter xy\n      ^^\n\
            expected the name of a declared operation\nnearest name: x\n",
    ),
    (
        Asked::Declaration("resource r cell operation a path a end", 2),
        9,
        Some(Status::DeclarationRefused),
        "",
        "declaration: unexpected at 38\ndeclaration:1:39: this can't stand here\n\
            resource r cell operation a path a end\n                                      ^\nexpected `path` or `end`\n",
    ),
];

/// How a search ended, and its answer.
fn ended<A: Allocator>(answer: SearchAnswer<A>) -> (Option<Status>, Answer<A>) {
    match answer {
        SearchAnswer::Ended(answer) => (Some(answer.status), answer),
        SearchAnswer::Undecided(answer) => (None, answer),
    }
}

fn search<A: Allocator + Copy>(alloc: A, row: &Row) -> (Option<Status>, Answer<A>) {
    ended(match row.0 {
        Asked::Script(script) => explore(alloc, LOCKS.as_bytes(), script.as_bytes(), row.1),
        Asked::Declaration(text, workers) => reach(alloc, text.as_bytes(), workers, row.1),
    })
}

// Checks that a search answers as its row says.
fn check_search(rt: &impl Abort, heap: Global, row: &Row) {
    let (status, answer) = search(heap, row);
    assert!(rt; status == row.2, "for {:?}", row.0);
    assert_eq!(rt; answer.out.as_slice(), row.3.as_bytes());
    assert_eq!(rt; answer.err.as_slice(), row.4.as_bytes());
}

fn check_searches(rt: &impl Abort, heap: Global, rows: &[Row]) {
    for row in rows {
        check_search(rt, heap, row);
    }
}

#[test]
fn searches_answer(rt: HostRuntime) {
    check_searches(&rt, rt.alloc(), ROWS);
    check_searches(&rt, rt.alloc(), PLACED);
}

// Whether a search answers as its row says, or that memory ran out: then with a front of its output, or none.
fn answers_with(refusing: &Refusing<Global>, row: &Row) -> Result<bool, Status> {
    let (status, answer) = search(refusing, row);
    if status == Some(Status::NoMemory) {
        let is_told = answer.err.is_empty()
            || answer.err.as_slice() == b"out of memory\n".as_slice();
        return if row.3.as_bytes().starts_with(answer.out.as_slice()) && is_told {
            Err(Status::NoMemory)
        } else {
            Ok(false)
        };
    }
    let is_right = status == row.2 && answer.out.as_slice() == row.3.as_bytes();
    Ok(is_right && answer.err.as_slice() == row.4.as_bytes())
}

fn refuse_each_request(rt: &impl Abort, heap: Global, rows: &[Row]) {
    for row in rows {
        let refused = refuse_in_turn(heap, Status::NoMemory, |refusing: &Refusing<Global>| {
            answers_with(refusing, row)
        });
        assert_eq!(rt; refused, Ok(()), "for {:?}", row.0);
    }
}

#[test]
fn wanting_memory_is_never_another_search(rt: HostRuntime) {
    refuse_each_request(&rt, rt.alloc(), ROWS);
}
