//! Scripts that are read.

use crate::tests::scripts::declaration::declared;
use path_decl::Decl;
use path_model::{OpId, Verb};
use path_script::{Process, ScriptFault, Step, read_script};
use std::alloc::{Allocator, Global};
use std::process::Abort;
use test_support::{Refusing, refuse_in_turn};

pub(crate) const SLOT: &[u8] =
    b"resource slot cell operation deposit, remove path deposit ; remove end end";

/// The name of each process and its steps.
type Told<'a> = &'a [(&'a str, &'a [Step])];

// Whether processes have these names and steps.
fn are_these<A: Allocator + Copy>(processes: &[Process<A>], want: Told) -> bool {
    if processes.len() != want.len() {
        return false;
    }
    for (process, (name, steps)) in processes.iter().zip(want) {
        if process.name() != *name || process.steps() != *steps {
            return false;
        }
    }
    true
}

// Whether a text has these processes.
fn tells<A: Allocator + Copy>(
    alloc: A,
    decl: &Decl,
    text: &str,
    want: Told,
) -> Result<bool, ScriptFault> {
    let script = read_script(alloc, decl, text.as_bytes())?;
    let is_told = are_these(script.processes(), want);
    drop(script);
    Ok(is_told)
}

// Checks that each text has the processes of its row.
fn check_all(rt: &impl Abort, heap: Global, decl: &Decl, rows: &[(&str, Told)]) {
    for (text, want) in rows {
        assert!(rt; tells(heap, decl, text, want) == Ok(true), "at {text:?}");
    }
}

/// Each form of a step; processes of the same name; texts without their last line feed; and a text without processes.
const TEXTS: [(&str, Told<'static>); 6] = [
    (
        "process producer\nenter deposit\nuse put 7\nleave\nend\nprocess consumer\nenter remove\nuse look\nleave\nend\n",
        &[
            (
                "producer",
                &[Step::Enter(OpId(0)), Step::Apply(Verb::Put(7)), Step::Leave],
            ),
            (
                "consumer",
                &[Step::Enter(OpId(1)), Step::Apply(Verb::Look), Step::Leave],
            ),
        ],
    ),
    (
        "process p\nenter remove\nenter deposit\nuse take\nleave\nuse add 18446744073709551615\nleave\nend",
        &[(
            "p",
            &[
                Step::Enter(OpId(1)),
                Step::Enter(OpId(0)),
                Step::Apply(Verb::Take),
                Step::Leave,
                Step::Apply(Verb::Add(u64::MAX)),
                Step::Leave,
            ],
        )],
    ),
    (
        "process p\nend\nprocess p\nend\n",
        &[("p", &[]), ("p", &[])],
    ),
    (
        "process abcdefghijklmnopqrstuvwxyz_01234\nend",
        &[("abcdefghijklmnopqrstuvwxyz_01234", &[])],
    ),
    ("process process\nend", &[("process", &[])]),
    ("", &[]),
];

#[test]
fn reads_scripts(rt: HostRuntime) {
    let decl = declared(&rt, rt.alloc(), SLOT);
    check_all(&rt, rt.alloc(), &decl, &TEXTS);
    drop(decl);
}

// Refuses each request of reading a text in turn; then these processes must be read.
fn refuse_each_request(rt: &impl Abort, heap: Global, decl: &Decl, text: &str, want: Told) {
    let refused = refuse_in_turn(heap, ScriptFault::OutOfMemory, |heap: &Refusing<Global>| {
        tells(heap, decl, text, want)
    });
    assert_eq!(rt; refused, Ok(()));
}

#[test]
fn each_request_of_a_reading_is_refused(rt: HostRuntime) {
    let decl = declared(&rt, rt.alloc(), SLOT);
    let (text, want) = TEXTS[0];
    refuse_each_request(&rt, rt.alloc(), &decl, text, want);
    drop(decl);
}
