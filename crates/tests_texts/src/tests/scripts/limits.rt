//! Both sides of each limit.

use crate::tests::scripts::declaration::declared;
use crate::tests::scripts::scripts::SLOT;
use path_decl::Decl;
use path_script::{LIMIT, ScriptFault, read_script};
use std::alloc::Global;
use std::process::Abort;

/// How many processes a text has, and how many steps the first one has.
type Counted = Result<(usize, usize), ScriptFault>;

fn counted(heap: Global, decl: &Decl, text: &str) -> Counted {
    let script = read_script(heap, decl, text.as_bytes())?;
    let processes = script.processes();
    let steps = match processes.first() {
        Some(process) => process.steps().len(),
        None => 0,
    };
    let count = processes.len();
    drop(script);
    Ok((count, steps))
}

// A text of pieces, each repeated this many times.
fn repeated(rt: &impl Abort, heap: Global, pieces: &[(&str, u32)]) -> String {
    let mut text = String::new(heap);
    for (piece, times) in pieces {
        repeat(rt, &mut text, piece, *times);
    }
    text
}

fn repeat(rt: &impl Abort, text: &mut String, piece: &str, times: u32) {
    for _ in 0..times {
        assert!(rt; text.push_str(piece).is_ok());
    }
}

// Checks that each text of pieces has the counts of its row.
fn count_so(rt: &impl Abort, heap: Global, decl: &Decl, rows: &[(&[(&str, u32)], Counted)]) {
    for (pieces, want) in rows {
        let text = repeated(rt, heap, pieces);
        assert!(rt; counted(heap, decl, text.as_str()) == *want, "at {want:?}");
    }
}

/// 16 processes, 4,096 steps in one process and in two, 16 entered at once; one more of each; and the faults that count before.
const LIMITS: [(&[(&str, u32)], Counted); 10] = [
    (&[("process p\nend\n", 16)], Ok((16, 0))),
    (&[("process p\nend\n", 17)], Err(ScriptFault::TooMany(32))),
    (
        &[
            ("process p\nenter deposit\n", 1),
            ("use look\n", 4_094),
            ("leave\nend\n", 1),
        ],
        Ok((1, 4_096)),
    ),
    (
        &[
            ("process p\nenter deposit\n", 1),
            ("use look\n", 4_095),
            ("leave\nend\n", 1),
        ],
        Err(ScriptFault::TooMany(4_097)),
    ),
    (
        &[
            ("process p\n", 1),
            ("enter deposit\nleave\n", 2_048),
            ("end\nprocess q\nenter deposit\n", 1),
        ],
        Err(ScriptFault::TooMany(4_099)),
    ),
    (
        &[
            ("process p\n", 1),
            ("enter deposit\nleave\n", 2_048),
            ("end\nprocess q\nleave\n", 1),
        ],
        Err(ScriptFault::Unbalanced(4_099)),
    ),
    (
        &[
            ("process p\n", 1),
            ("enter deposit\n", 16),
            ("leave\n", 16),
            ("end", 1),
        ],
        Ok((1, 32)),
    ),
    (
        &[("process p\n", 1), ("enter deposit\n", 17)],
        Err(ScriptFault::TooDeep(17)),
    ),
    (
        &[
            ("process p\n", 1),
            ("enter deposit\n", 16),
            ("enter insert\n", 1),
        ],
        Err(ScriptFault::Undeclared(17)),
    ),
    (
        &[
            ("process p\n", 1),
            ("enter deposit\n", 16),
            ("use look\n", 4_080),
            ("enter deposit\n", 1),
        ],
        Err(ScriptFault::TooDeep(4_097)),
    ),
];

#[test]
fn limits_are_exact(rt: HostRuntime) {
    let decl = declared(&rt, rt.alloc(), SLOT);
    count_so(&rt, rt.alloc(), &decl, &LIMITS);
    drop(decl);
}

/// 64 bytes.
const PIECE: &str = "process abcdefghijklmnopqrstuvwxyzabcdefghijklmnopqrstuvwxyzabcd";

#[test]
fn the_length_is_limited(rt: HostRuntime) {
    let decl = declared(&rt, rt.alloc(), SLOT);
    let rows: [(&[(&str, u32)], Counted); 2] = [
        (&[(PIECE, 4_096)], Err(ScriptFault::BadLine(0))),
        (&[(PIECE, 4_096), ("x", 1)], Err(ScriptFault::TooLong)),
    ];
    count_so(&rt, rt.alloc(), &decl, &rows);
    drop(decl);
    assert!(rt; PIECE.len() == 64 && LIMIT == 262_144);
}
