//! What is told of texts past their limits.

use crate::tests::places::told::{Kind, told_of, told_of_declaration};
use std::alloc::Global;
use std::process::Abort;

// Appends a part.
fn push(rt: &impl Abort, text: &mut String, part: &str) {
    text.push_str(part).expect(rt, "there is memory");
}

/// As many resources, each on a line of its own.
pub(crate) fn resources(rt: &impl Abort, heap: Global, count: u32) -> String {
    let mut text = String::new(heap);
    for number in 0..count {
        write!(text, "resource r{number} cell operation a{number} end\n").expect(
            rt,
            "there is memory",
        );
    }
    text
}

// As many names, and this between two of them.
fn names(rt: &impl Abort, heap: Global, count: u32, between: &str) -> String {
    let mut text = String::new(heap);
    for number in 0..count {
        if number > 0 {
            push(rt, &mut text, between);
        }
        write!(text, "a{number}").expect(rt, "there is memory");
    }
    text
}

// A resource of this many operations, and a path of the first ones.
fn long_path(rt: &impl Abort, heap: Global, operations: u32, named: u32) -> String {
    let mut text = String::new(heap);
    push(rt, &mut text, "resource r cell operation ");
    push(rt, &mut text, names(rt, heap, operations, ", ").as_str());
    push(rt, &mut text, " path ");
    push(rt, &mut text, names(rt, heap, named, " ; ").as_str());
    push(rt, &mut text, " end end");
    text
}

// A resource of one operation, and as many paths of it.
fn paths(rt: &impl Abort, heap: Global, count: u32) -> String {
    let mut text = String::new(heap);
    push(rt, &mut text, "resource r cell operation a");
    for _ in 0..count {
        push(rt, &mut text, " path a end");
    }
    push(rt, &mut text, " end");
    text
}

// Checks what is told of a declaration past a limit; nothing of one at the limit.
fn check_limit(rt: &impl Abort, heap: Global, at: &str, past: &str, want: &str) {
    let told = told_of_declaration(heap, at.as_bytes()).expect(rt, "there is memory");
    assert!(rt; told.as_str().is_empty(), "{told}");
    let told = told_of_declaration(heap, past.as_bytes()).expect(rt, "there is memory");
    assert!(rt;
        told.as_str()
            .contains(": this is one more than the limit\n")
            && told.as_str().ends_with(want),
        "{told}"
    );
}

#[test]
fn resources_past_the_limit(rt: HostRuntime) {
    let heap = rt.alloc();
    let (at, past) = (resources(&rt, heap, 64), resources(&rt, heap, 65));
    check_limit(
        &rt,
        heap,
        &at,
        &past,
        "^^^\nexpected at most 64 resources\n",
    );
}

#[test]
fn operations_past_the_limit(rt: HostRuntime) {
    let heap = rt.alloc();
    let (at, past) = (long_path(&rt, heap, 256, 1), long_path(&rt, heap, 257, 1));
    check_limit(
        &rt,
        heap,
        &at,
        &past,
        "^^^^\nexpected at most 256 operations\n",
    );
}

#[test]
fn paths_past_the_limit(rt: HostRuntime) {
    let heap = rt.alloc();
    let (at, past) = (paths(&rt, heap, 256), paths(&rt, heap, 257));
    check_limit(&rt, heap, &at, &past, "^^^^\nexpected at most 256 paths\n");
}

#[test]
fn names_past_the_limit(rt: HostRuntime) {
    let heap = rt.alloc();
    let (at, past) = (long_path(&rt, heap, 65, 64), long_path(&rt, heap, 65, 65));
    check_limit(
        &rt,
        heap,
        &at,
        &past,
        "^^^\nexpected at most 64 names in a path\n",
    );
}

// Checks what is wrong with a text of this kind, in the words of the first line that is told of it.
fn check_words(rt: &impl Abort, heap: Global, kind: Kind, text: &[u8], want: &str) {
    let told = told_of(heap, kind, text).expect(rt, "there is memory");
    assert!(rt;
        told.as_str().lines().next().unwrap_or("").ends_with(want),
        "{told}"
    );
}

#[test]
fn texts_past_the_limit(rt: HostRuntime) {
    let heap = rt.alloc();
    let script = vec![in heap; b'x'; 262_145].expect(&rt, "there is memory");
    check_words(
        &rt,
        heap,
        Kind::Script,
        &script,
        ": the text has more than 262,144 bytes",
    );
    let attempts = vec![in heap; b'x'; 134_217_729].expect(&rt, "there is memory");
    check_words(
        &rt,
        heap,
        Kind::Attempts,
        &attempts,
        ": the text has more than 134,217,728 bytes",
    );
    let told = told_of_declaration(heap, &script).expect(&rt, "there is memory");
    assert!(rt;
        told.as_str()
            .starts_with("F:1:65537: the text has more than 65,536 bytes\n"),
        "{told}"
    );
}

#[test]
fn scripts_past_the_limit(rt: HostRuntime) {
    let heap = rt.alloc();
    let mut deep = String::new(heap);
    push(&rt, &mut deep, "process p\n");
    let mut many = String::new(heap);
    for number in 0..17 {
        push(&rt, &mut deep, "enter deposit\n");
        write!(many, "process p{number}\nend\n").expect(&rt, "there is memory");
    }
    let want = "F:18:1: this would be the 17th operation entered at once";
    check_words(&rt, heap, Kind::Script, deep.as_bytes(), want);
    let want = "F:33:1: this would be the 17th process or the 4,097th step";
    check_words(&rt, heap, Kind::Script, many.as_bytes(), want);
}
