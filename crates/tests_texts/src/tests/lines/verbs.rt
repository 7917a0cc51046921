//! Verbs and operations in texts.

use crate::tests::lines::declaration::declared as declaration;
use path_decl::Decl;
use path_lines::{declared, read_verb};
use path_model::{OpId, Verb};
use std::process::Abort;

// The verb that is the first line of a text, and the text from that line's end on.
fn verb(text: &[u8]) -> Option<(Verb, &[u8])> {
    read_verb(text).ok()
}

#[test]
fn reads_verbs(rt: HostRuntime) {
    let verbs = [
        verb(b"put 7\nrest"),
        verb(b"take"),
        verb(b"look\n"),
        verb(b"add 0"),
        verb(b"put 07"),
        verb(b"look 1"),
        verb(b""),
    ];
    let want: [Option<(Verb, &[u8])>; 7] = [
        Some((Verb::Put(7), b"\nrest")),
        Some((Verb::Take, b"")),
        Some((Verb::Look, b"\n")),
        Some((Verb::Add(0), b"")),
        None,
        None,
        None,
    ];
    assert!(rt; verbs == want);
}

// The operation with a name.
fn operation(decl: &Decl, name: &[u8]) -> Option<OpId> {
    declared(decl, name)
}

#[test]
fn finds_operations(rt: HostRuntime) {
    let decl = declaration(&rt, rt.alloc(), b"resource r cell operation a, b end");
    let found = [
        operation(&decl, b"a"),
        operation(&decl, b"b"),
        operation(&decl, b"r"),
        operation(&decl, b"\xc3\xa9"),
    ];
    drop(decl);
    assert!(rt; found == [Some(OpId(0)), Some(OpId(1)), None, None]);
}
