//! What all commands have in common: how they are called, and how they end; and each command once.

use cmd_audit::audit_bytes;
use cmd_check::{check_to, compile_to};
use cmd_trace::{ROOM, trace_bytes};
use std::alloc::{Allocator, Global};
use std::io::Write;
use std::process::Abort;
use tell_base::Status;
use test_support::{LONE_BURST, LONE_BURST_COMPILED, in_bytes};

/// How a call ends: its status, its output, and its standard error.
pub type Ending<'a> = test_support::Ending<'a, Status>;

/// Checks that the call on this text ended as wanted.
pub fn check_ending(rt: &impl Abort, text: &str, ended: (Status, &[u8], &[u8]), want: Ending<'_>) {
    assert_eq!(rt; ended, in_bytes(want), "for {text:?}");
}

#[derive(Clone, Copy)]
pub enum Command {
    Check,
    Compile,
    /// A trace with its report.
    Trace,
    Audit,
}

/// A command, its declaration and its other text, how it ends, and what it writes.
pub type Row = (Command, &'static str, &'static str, Status, &'static str);

pub const COMMANDS: &[Row] = &[
    (
        Command::Check,
        "resource r cell operation a, b, c path a ; b ; c end path a ; ( b ; c ) end end",
        "",
        Status::Done,
        "resource r cell operation a, b, c path a; b; c end path a; ( b; c ) end end\n",
    ),
    (
        Command::Compile,
        LONE_BURST,
        "",
        Status::Done,
        LONE_BURST_COMPILED,
    ),
    (
        Command::Trace,
        "resource r cell operation a, b path a ; b end path b ; a end end",
        "1 start a\n1 start b\n",
        Status::Done,
        "1 start a: blocked 1\n1 start b: blocked 0\nstartable\nblocked a 1\nblocked b 0\nfrozen yes\n",
    ),
    (
        Command::Audit,
        "resource slot cell operation deposit, remove path deposit ; remove end end",
        "1 start deposit: started 0\n2 start remove: blocked 0\n1 use 0 put 7: used 0\n\
         1 finish 0: finished\n2 start remove: started 1\n2 use 1 look: used 7\n",
        Status::Done,
        "sound\n",
    ),
    (
        Command::Audit,
        "resource slot cell operation deposit, remove path deposit ; remove end end",
        "journal 2 room 7\n1 start deposit: started 0\n2 start remove: started 1\n",
        Status::Unsound,
        "wrong line 1\n",
    ),
];

/// How a command on a declaration and another text ends.
pub fn ends<A: Allocator + Copy, O: Write, E: Write>(
    alloc: A,
    command: Command,
    texts: (&str, &str),
    out: &mut O,
    err: &mut E,
) -> Status {
    let (declaration, text) = (texts.0.as_bytes(), texts.1.as_bytes());
    match command {
        Command::Check => check_to(alloc, declaration, out, err),
        Command::Compile => compile_to(alloc, declaration, out, err),
        Command::Trace => trace_bytes(alloc, declaration, ROOM, true, text, out, err),
        Command::Audit => audit_bytes(alloc, declaration, ROOM, text, out, err),
    }
}

/// Checks that the command on this declaration, into this writer, ends with this status and message.
pub fn check_ending_into<O: Write>(
    rt: &impl Abort,
    heap: Global,
    command: Command,
    declaration: &str,
    out: &mut O,
    want: (Status, &str),
) {
    let mut err = Vec::new(heap);
    let status = ends(heap, command, (declaration, ""), out, &mut err);
    check_ending(rt, declaration, (status, b"", &err), (want.0, "", want.1));
}
