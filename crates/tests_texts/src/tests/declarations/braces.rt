//! Braces, with and without a bound, and their faults.

use crate::tests::declarations::decl::{draws, expect, expect_faults, put, refuse_while_reading};
use path_lex::DeclFault;
use std::alloc::Global;
use std::process::Abort;

const TREES: &str = "resource r cell operation a, b, c path { a } , b ; c end path { a ; b : 3 } end
    path { ( a , b ) } ; { c : 65535 } end path { a : 1 } end path (( { a } )) end end";

const DRAWN: &[(u32, &str)] = &[
    (0, "(; (, (* 0) 1) 2)"),
    (1, "(*3 (; 0 1))"),
    (2, "(; (* (, 0 1)) (*65535 2))"),
    (3, "(*1 0)"),
    (4, "(* 0)"),
];

#[test]
fn trees_of_braces(rt: HostRuntime) {
    draws(&rt, rt.alloc(), TREES, DRAWN);
}

// Checks that a declaration of one operation, a, with this path has this fault, or none.
fn expect_path(rt: &impl Abort, heap: Global, path: &str, want: Option<DeclFault>) {
    let mut text = String::new(heap);
    put(rt, &mut text, "resource r cell operation a path ");
    put(rt, &mut text, path);
    put(rt, &mut text, " end end");
    expect(rt, heap, &text, want);
}

// Checks that a declaration of one operation with each of these paths has the fault of its row.
fn expect_faults_of_paths(rt: &impl Abort, heap: Global, rows: &[(&str, DeclFault)]) {
    for (path, want) in rows {
        expect_path(rt, heap, path, Some(*want));
    }
}

const BAD_BOUNDS: &[(&str, DeclFault)] = &[
    ("{ a : 0 }", DeclFault::BadCount(39)),
    ("{ a : 00 }", DeclFault::BadCount(39)),
    ("{ a : 007 }", DeclFault::BadCount(39)),
    ("{ a:01}", DeclFault::BadCount(37)),
    ("{ a : 65536 }", DeclFault::BadCount(39)),
    ("{ a : 999999999 }", DeclFault::BadCount(39)),
    ("{ a : 1000000000 }", DeclFault::NumberTooLong(39)),
];

#[test]
fn bounds(rt: HostRuntime) {
    expect_faults_of_paths(&rt, rt.alloc(), BAD_BOUNDS);
    for path in ["{ a : 1 }", "{a:10}", "{ a : 65535 }"] {
        expect_path(&rt, rt.alloc(), path, None);
    }
}

const UNEXPECTED_IN_BRACES: &[(&str, DeclFault)] = &[
    ("{ a : }", DeclFault::Unexpected(39)),
    ("{ a 2 }", DeclFault::Unexpected(37)),
    ("a : 2", DeclFault::Unexpected(35)),
    ("( a : 2 )", DeclFault::Unexpected(37)),
    ("{ }", DeclFault::Unexpected(35)),
    ("{ a ; }", DeclFault::Unexpected(39)),
    ("{ a )", DeclFault::Unexpected(37)),
    ("( a }", DeclFault::Unexpected(37)),
    ("{ a : a }", DeclFault::Unexpected(39)),
    ("{ a : 2 ; a }", DeclFault::Unexpected(41)),
    ("{ a : 2", DeclFault::Unexpected(41)),
    ("{ a", DeclFault::Unexpected(37)),
];

#[test]
fn unexpected_in_braces(rt: HostRuntime) {
    expect_faults_of_paths(&rt, rt.alloc(), UNEXPECTED_IN_BRACES);
}

// The first token that breaks a rule counts.
const RULES_IN_THE_ORDER_OF_TOKENS: &[(&str, DeclFault)] = &[
    ("{ a ; { x } }", DeclFault::NestedBraces(39)),
    ("{ x ; { a } }", DeclFault::Undeclared(35)),
    ("{ { x } }", DeclFault::NestedBraces(35)),
    ("{ ( ( { a } ) ) }", DeclFault::NestedBraces(39)),
    ("{ { a : 0 } }", DeclFault::NestedBraces(35)),
    ("{ a ; { a : 2 } : 0 }", DeclFault::NestedBraces(39)),
    ("{ x : 0 }", DeclFault::Undeclared(35)),
    ("{ a : 0 } ; x", DeclFault::BadCount(39)),
    ("x ; { a : 0 }", DeclFault::Undeclared(33)),
    ("{ a , a : 0 }", DeclFault::RepeatedName(39)),
    ("{ a : 2 } ; { a }", DeclFault::RepeatedName(47)),
];

#[test]
fn rules_in_the_order_of_tokens(rt: HostRuntime) {
    expect_faults_of_paths(&rt, rt.alloc(), RULES_IN_THE_ORDER_OF_TOKENS);
}

const BAD_PAIRS: &[(&str, DeclFault)] = &[
    (
        "resource r cell operation a, b path a ; ( b , a ) end end",
        DeclFault::RepeatedName(46),
    ),
    (
        "resource r cell operation a, b path { a ; { b } } end end",
        DeclFault::NestedBraces(42),
    ),
];

const PAIR: &str = "resource r cell operation a, b path { a } ; { b : 2 } end path { b } end end";

#[test]
fn braces_of_two_operations(rt: HostRuntime) {
    expect_faults(&rt, rt.alloc(), BAD_PAIRS);
    expect(&rt, rt.alloc(), PAIR, None);
}

const OPENING: &str = "(((((((((((((((((((((((((((((((((";

const CLOSING: &str = ")))))))))))))))))))))))))))))))))";

// The first `count` signs of a text.
fn signs<'t>(rt: &impl Abort, text: &'t str, count: usize) -> &'t str {
    text.get(..count).expect(rt, "the text is long enough")
}

// Checks that a path of parentheses, braces and parentheses again around an a has this fault, or none.
fn deep(rt: &impl Abort, heap: Global, before: usize, within: usize, want: Option<DeclFault>) {
    let mut path = String::new(heap);
    put(rt, &mut path, signs(rt, OPENING, before));
    put(rt, &mut path, "{");
    put(rt, &mut path, signs(rt, OPENING, within));
    put(rt, &mut path, "a");
    put(rt, &mut path, signs(rt, CLOSING, within));
    put(rt, &mut path, "}");
    put(rt, &mut path, signs(rt, CLOSING, before));
    expect_path(rt, heap, &path, want);
}

#[test]
fn depth_of_braces(rt: HostRuntime) {
    let fault = Some(DeclFault::TooDeep(65));
    for (before, within) in [(0, 31), (16, 15), (31, 0)] {
        deep(&rt, rt.alloc(), before, within, None);
        deep(&rt, rt.alloc(), before + 1, within, fault);
    }
}

// Depth counts before nesting.
const OPEN_BRACES: &[(&str, DeclFault)] = &[
    (
        "{{{{{{{{{{{{{{{{{{{{{{{{{{{{{{{{a}}}}}}}}}}}}}}}}}}}}}}}}}}}}}}}}",
        DeclFault::NestedBraces(34),
    ),
    (
        "{{{{{{{{{{{{{{{{{{{{{{{{{{{{{{{{{a}}}}}}}}}}}}}}}}}}}}}}}}}}}}}}}}}",
        DeclFault::TooDeep(65),
    ),
];

#[test]
fn many_open_braces(rt: HostRuntime) {
    expect_faults_of_paths(&rt, rt.alloc(), OPEN_BRACES);
}

const BRACES: &str =
    "resource r cell operation a, b, c path { a ; b } , { c : 3 } end path { c } end end";

#[test]
fn reading_braces_wants_memory(rt: HostRuntime) {
    refuse_while_reading(&rt, rt.alloc(), BRACES, (1, 3, 2));
}
