//! Each command once, and each with every request for memory refused in turn.

use page_answers::{Answer, audit, check, compile, explain, judge, trace};
use std::alloc::{Allocator, Global};
use std::process::Abort;
use tell_base::Status;
use test_support::{LONE_BURST, LONE_BURST_COMPILED, Refusing, refuse_in_turn};

#[derive(Clone, Copy)]
enum Command {
    Check,
    Compile,
    /// A trace with its report.
    Trace,
    Audit,
    Explain,
    Judge,
}

/// A command, its declaration and its other text, how it ends, and its two texts.
type Row = (
    Command,
    &'static str,
    &'static str,
    Status,
    &'static str,
    &'static str,
);

const ROWS: &[Row] = &[
    (
        Command::Check,
        "resource r cell operation a path (a) end end",
        "",
        Status::Done,
        "resource r cell operation a path a end end\n",
        "",
    ),
    (
        Command::Compile,
        LONE_BURST,
        "",
        Status::Done,
        LONE_BURST_COMPILED,
        "",
    ),
    (
        Command::Trace,
        "resource r cell operation a, b path a ; b end path b ; a end end",
        "1 start a\n1 start b\n",
        Status::Done,
        "1 start a: blocked 1\n1 start b: blocked 0\nstartable\nblocked a 1\nblocked b 0\nfrozen yes\n",
        "",
    ),
    (
        Command::Audit,
        "resource slot cell operation deposit, remove path deposit ; remove end end",
        "1 start deposit: started 0\n2 start remove: started 1\n",
        Status::Unsound,
        "wrong line 1\n",
        "",
    ),
    (
        Command::Check,
        "resource r cell operation a, a end",
        "",
        Status::DeclarationRefused,
        "",
        "declaration: duplicate operation at 29\n",
    ),
    (
        Command::Trace,
        "resource r cell operation a end",
        "1 start b\n",
        Status::TextRefused,
        "",
        "text: undeclared in line 0\n",
    ),
];

/// What is explained: the words are those of the program.
const EXPLAINED: &[Row] = &[
    (
        Command::Explain,
        "resource r cell operation a, b path a ; b end path b ; a end end",
        "1 start a\n",
        Status::Done,
        "1: 1 start a: blocked 1\n   forbidden by path 1: path b; a end\n   in progress: nothing; may begin next: b\n\n\
            r\n   can start: nothing\n   blocked: a by path 1, b by path 0\n   live: nothing\n   stuck for ever: yes\n",
        "",
    ),
    (
        Command::Judge,
        "resource slot cell operation deposit end",
        "1 start deposit: started 1\n",
        Status::Unsound,
        "line 1 is wrong: 1 start deposit: started 1\n   owed: started 0\n\n\
            slot\n   can start: deposit\n   blocked: nothing\n   live: deposit (activation 0, worker 1)\n   stuck for ever: no\n",
        "",
    ),
];

/// Faults that are told with their place. Where there is no memory for that, one line is told.
const PLACED: &[Row] = &[
    (
        Command::Explain,
        "resource r cell operation add end",
        "1 start ad\n",
        Status::TextRefused,
        "",
        "attempts:1:9: this isn't a declared operation\n1 start ad\n        ^^\nexpected the name of a declared operation\n\
            nearest name: add\n",
    ),
    (
        Command::Explain,
        "resource r cell operation a, a end",
        "",
        Status::DeclarationRefused,
        "",
        "declaration:1:30: an earlier operation has this name\nresource r cell operation a, a end\n\
            \u{20}                            ^\nexpected a name of its own\n",
    ),
    (
        Command::Judge,
        "resource r cell operation a end",
        "1 start a\n",
        Status::TextRefused,
        "",
        "journal:1:10: this line can't be read\n1 start a\n         ^\nexpected `: ` and the reply\n",
    ),
];

fn answer<A: Allocator + Copy>(alloc: A, row: &Row) -> Answer<A> {
    let (declaration, text) = (row.1.as_bytes(), row.2.as_bytes());
    match row.0 {
        Command::Check => check(alloc, declaration),
        Command::Compile => compile(alloc, declaration),
        Command::Trace => trace(alloc, declaration, 9, true, text),
        Command::Audit => audit(alloc, declaration, 9, text),
        Command::Explain => explain(alloc, declaration, 9, text),
        Command::Judge => judge(alloc, declaration, 9, text),
    }
}

// Checks that a command answers as its row says.
fn check_answer(rt: &impl Abort, heap: Global, row: &Row) {
    let answer = answer(heap, row);
    assert!(rt; answer.status == row.3, "for {:?}", row.1);
    assert_eq!(rt; answer.out.as_slice(), row.4.as_bytes());
    assert_eq!(rt; answer.err.as_slice(), row.5.as_bytes());
}

fn check_answers(rt: &impl Abort, heap: Global, rows: &[Row]) {
    for row in rows {
        check_answer(rt, heap, row);
    }
}

#[test]
fn each_command_answers(rt: HostRuntime) {
    check_answers(&rt, rt.alloc(), ROWS);
    check_answers(&rt, rt.alloc(), EXPLAINED);
    check_answers(&rt, rt.alloc(), PLACED);
}

// Whether a command answers as its row says, or that memory ran out because this allocator refused a request: then in words, or in no
// words if it refused the memory for these.
fn answers_with(refusing: &Refusing<Global>, row: &Row) -> Result<bool, Status> {
    let answer = answer(refusing, row);
    if answer.status == Status::NoMemory {
        let is_told = answer.err.is_empty()
            || answer.err.as_slice() == b"out of memory\n".as_slice();
        return if answer.out.is_empty() && is_told {
            Err(Status::NoMemory)
        } else {
            Ok(false)
        };
    }
    let is_right = answer.status == row.3 && answer.out.as_slice() == row.4.as_bytes();
    Ok(is_right && answer.err.as_slice() == row.5.as_bytes())
}

fn refuse_each_request(rt: &impl Abort, heap: Global, rows: &[Row]) {
    for row in rows {
        let refused = refuse_in_turn(heap, Status::NoMemory, |refusing: &Refusing<Global>| {
            answers_with(refusing, row)
        });
        assert_eq!(rt; refused, Ok(()), "for {:?}", row.1);
    }
}

#[test]
fn wanting_memory_is_never_another_answer(rt: HostRuntime) {
    refuse_each_request(&rt, rt.alloc(), ROWS);
    refuse_each_request(&rt, rt.alloc(), EXPLAINED);
}
