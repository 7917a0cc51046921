//! Texts that aren't scripts, and their faults.

use crate::tests::scripts::declaration::declared;
use crate::tests::scripts::scripts::SLOT;
use path_decl::Decl;
use path_script::{ScriptFault, read_script};
use std::alloc::Global;
use std::process::Abort;

// Why a text is refused.
fn refusal(heap: Global, decl: &Decl, text: &str) -> Option<ScriptFault> {
    match read_script(heap, decl, text.as_bytes()) {
        Ok(script) => {
            drop(script);
            None
        }
        Err(fault) => Some(fault),
    }
}

// Checks that each text is refused with the fault of its row.
fn check_refused(rt: &impl Abort, heap: Global, decl: &Decl, rows: &[(&str, ScriptFault)]) {
    for (text, want) in rows {
        assert!(rt; refusal(heap, decl, text) == Some(*want), "at {text:?}");
    }
}

/// Worked faults; lines that can't come there; and the first of two faulty lines.
const FAULTS: [(&str, ScriptFault); 20] = [
    ("process p\nleave\nend", ScriptFault::Unbalanced(1)),
    ("process p\nenter deposit\nend", ScriptFault::Unbalanced(2)),
    ("process p\nuse look\nend", ScriptFault::Unbalanced(1)),
    (
        "process p\nenter remove\nleave\nleave\nend",
        ScriptFault::Unbalanced(3),
    ),
    ("process p\nenter insert\nend", ScriptFault::Undeclared(1)),
    ("process p\nenter Deposit\nend", ScriptFault::Undeclared(1)),
    ("process p\nenter cell\nend", ScriptFault::BadLine(1)),
    ("process p", ScriptFault::BadLine(1)),
    ("process p\n", ScriptFault::BadLine(1)),
    ("process p\nenter deposit", ScriptFault::BadLine(2)),
    ("\n", ScriptFault::BadLine(0)),
    ("process p\nend\n\n", ScriptFault::BadLine(2)),
    ("leave", ScriptFault::BadLine(0)),
    ("end", ScriptFault::BadLine(0)),
    ("use look", ScriptFault::BadLine(0)),
    ("enter insert", ScriptFault::BadLine(0)),
    ("process p\nprocess q\nend\nend", ScriptFault::BadLine(1)),
    ("process p\nend\nend", ScriptFault::BadLine(2)),
    (
        "process p\nuse look\nenter insert\nx",
        ScriptFault::Unbalanced(1),
    ),
    (
        "process p\nx\nuse look\nenter insert",
        ScriptFault::BadLine(1),
    ),
];

#[test]
fn refuses_faulty_lines(rt: HostRuntime) {
    let decl = declared(&rt, rt.alloc(), SLOT);
    check_refused(&rt, rt.alloc(), &decl, &FAULTS);
    drop(decl);
}

// Checks that line 0 of each text is bad.
fn check_bad(rt: &impl Abort, heap: Global, decl: &Decl, texts: &[&str]) {
    for text in texts {
        assert!(rt;
            refusal(heap, decl, text) == Some(ScriptFault::BadLine(0)),
            "at {text:?}"
        );
    }
}

/// Lines that aren't `process NAME`: bytes around it, and names that aren't names.
const NO_PROCESS: [&str; 9] = [
    "process",
    "process ",
    "process  p\nend",
    " process p\nend",
    "process p \nend",
    "process p\r\nend",
    "Process p\nend",
    "process 1p\nend",
    "process abcdefghijklmnopqrstuvwxyz_012345\nend",
];

#[test]
fn refuses_what_names_no_process(rt: HostRuntime) {
    let decl = declared(&rt, rt.alloc(), SLOT);
    check_bad(&rt, rt.alloc(), &decl, &NO_PROCESS);
    drop(decl);
}

// The fault of a line of a process that has entered an operation.
fn said_of(heap: Global, decl: &Decl, line: &str) -> Option<ScriptFault> {
    match format!(in heap; "process p\nenter deposit\n{line}\nleave\nend") {
        Ok(text) => refusal(heap, decl, text.as_str()),
        Err(_) => Some(ScriptFault::OutOfMemory),
    }
}

// Checks that each line is bad there.
fn check_bad_steps(rt: &impl Abort, heap: Global, decl: &Decl, lines: &[&str]) {
    for line in lines {
        assert!(rt;
            said_of(heap, decl, line) == Some(ScriptFault::BadLine(2)),
            "at {line:?}"
        );
    }
}

/// Lines that aren't steps.
const NO_STEP: [&str; 16] = [
    "",
    "enter",
    "enter ",
    "enter  deposit",
    "enter deposit ",
    "enter #0",
    "enter \u{e9}",
    "use",
    "use put",
    "use put 01",
    "use put 18446744073709551616",
    "use look 1",
    "use drop",
    "leave ",
    "Leave",
    "end ",
];

#[test]
fn refuses_what_is_no_step(rt: HostRuntime) {
    let decl = declared(&rt, rt.alloc(), SLOT);
    check_bad_steps(&rt, rt.alloc(), &decl, &NO_STEP);
    drop(decl);
}

// Whether a fault has this text.
fn is_spelled_so(heap: Global, fault: ScriptFault, want: &str) -> bool {
    match format!(in heap; "{fault}") {
        Ok(text) => text.as_str() == want,
        Err(_) => false,
    }
}

fn check_spellings(rt: &impl Abort, heap: Global, rows: &[(ScriptFault, &str)]) {
    for (fault, want) in rows {
        assert!(rt; is_spelled_so(heap, *fault, want), "at {want}");
    }
}

const SPELLED: [(ScriptFault, &str); 7] = [
    (ScriptFault::TooLong, "too long"),
    (ScriptFault::BadLine(3), "bad line 3"),
    (ScriptFault::Undeclared(3), "undeclared in line 3"),
    (ScriptFault::Unbalanced(3), "unbalanced in line 3"),
    (ScriptFault::TooDeep(3), "too deep in line 3"),
    (ScriptFault::TooMany(3), "too many in line 3"),
    (ScriptFault::OutOfMemory, "out of memory"),
];

#[test]
fn spells_faults(rt: HostRuntime) {
    check_spellings(&rt, rt.alloc(), &SPELLED);
}
