//! Declarations, and their printed texts.

use super::{declared, expect_text};
use path_model::OutOfMemory;
use path_print::print;
use std::alloc::Global;
use std::process::Abort;
use test_support::{Refusing, refuse_in_turn};

const OTHER_TREES: &str =
    "resource r cell operation a, b, c path a; b; c end path a; ( b; c ) end end\n";

const LAWS: &str =
    "resource t tally operation a, b end resource q queue 1024 operation c path c end end\n";

const POOL: &str = "resource r cell operation read, write path { read: 2 }, write end end\n";

// The printed text of the declaration in a text.
fn printed(rt: &impl Abort, heap: Global, text: &str) -> String {
    let decl = declared(rt, heap, text);
    let printed = print(heap, &decl);
    drop(decl);
    printed.expect(rt, "enough memory")
}

// Checks that each text is printed as its row says.
fn prints(rt: &impl Abort, heap: Global, rows: &[(&str, &str)]) {
    for (text, want) in rows {
        let printed = printed(rt, heap, text);
        expect_text(rt, &printed, want);
    }
}

const PRINTED: &[(&str, &str)] = &[
    (
        "resource r cell operation a,b,c path (a , b) ; c end end",
        "resource r cell operation a, b, c path a, b; c end end\n",
    ),
    (
        "resource r cell operation a , b , c path (a ; b) , c end end",
        "resource r cell operation a, b, c path ( a; b ), c end end\n",
    ),
    (
        "resource r cell operation a, b, c path a ; b ; c end path a ; ( b ; c ) end end",
        OTHER_TREES,
    ),
    (
        "resource r\ncell operation a,b,c\npath (a, b), c end path a, (b, c) end end\n",
        "resource r cell operation a, b, c path a, b, c end path a, ( b, c ) end end\n",
    ),
    (
        "resource r cell operation a end\nresource s cell operation b path b end end",
        "resource r cell operation a end resource s cell operation b path b end end\n",
    ),
    (
        "resource t tally\noperation a , b end\nresource q queue\t1024operation c path c end end",
        LAWS,
    ),
    (
        "resource r cell operation read, write path { read : 2 } , write end end",
        "resource r cell operation read, write path { read: 2 }, write end end\n",
    ),
    (
        "resource r cell operation a, b, c path {(a;b)};c end path {(a,b):65535} end end",
        "resource r cell operation a, b, c path { a; b }; c end path { a, b: 65535 } end end\n",
    ),
    (
        "resource r cell operation a path ((((((((((((((((((((((((((((((((a)))))))))))))))))))))))))))))))) end end",
        "resource r cell operation a path a end end\n",
    ),
];

#[test]
fn prints_the_tokens(rt: HostRuntime) {
    prints(&rt, rt.alloc(), PRINTED);
}

// Refuses each request of printing this text in turn; then it must be printed as it is laid out here.
fn refuse_while_printing(rt: &impl Abort, heap: Global, text: &str) {
    let decl = declared(rt, heap, text);
    let refused = refuse_in_turn(heap, OutOfMemory, |refusing: &Refusing<Global>| {
        let printed = print(refusing, &decl)?;
        Ok(printed.as_str() == text)
    });
    assert_eq!(rt; refused, Ok(()));
    drop(decl);
}

#[test]
fn printing_wants_memory(rt: HostRuntime) {
    refuse_while_printing(&rt, rt.alloc(), OTHER_TREES);
    refuse_while_printing(&rt, rt.alloc(), POOL);
    refuse_while_printing(&rt, rt.alloc(), LAWS);
}
