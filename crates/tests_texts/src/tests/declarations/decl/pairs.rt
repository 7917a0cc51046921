//! Texts with several faults at one token: which counts.

use super::limits::{put_names, put_resources, repeated};
use super::{expect, put};
use path_lex::DeclFault;
use std::alloc::Global;
use std::process::Abort;

// What stands before a row's text.
#[derive(Clone, Copy)]
enum Before {
    Nothing,
    // As many resources as a file may have.
    Resources,
    // As many operations as a file may have, without the end of their list.
    Operations,
    // A resource s with an operation b, and then a path of as many names as it may have, without its end.
    Names,
    // As many paths as a file may have, but for one.
    Paths,
    // A path in which a brace, and then as many parentheses as may stand in it, are open.
    Opened,
}

// What stands before, a text, and the fault.
type Row<'a> = (Before, &'a str, DeclFault);

// The 257th operation, at 1196, is a duplicate; so is the 65th resource, at 2293.
const DUPLICATES: &[Row<'static>] = &[
    (
        Before::Resources,
        "resource r7 cell operation b end",
        DeclFault::DuplicateResource(2293),
    ),
    (
        Before::Operations,
        ",a7 end",
        DeclFault::DuplicateOperation(1196),
    ),
];

// The 65th name of a path, at 559, is undeclared, of another resource, or repeated.
const NAMES: &[Row<'static>] = &[
    (Before::Names, ";x end end", DeclFault::Undeclared(559)),
    (Before::Names, ";r end end", DeclFault::Undeclared(559)),
    (Before::Names, ";b end end", DeclFault::Undeclared(559)),
    (Before::Names, ";a7 end end", DeclFault::RepeatedName(559)),
];

// A brace within braces would be the 33rd open one.
const DEEP_AND_NESTED: &[Row<'static>] = &[(Before::Opened, "{ a", DeclFault::TooDeep(65))];

// A token that can't continue a declaration would be a duplicate, undeclared, repeated, nested, too deep or one too many.
const UNEXPECTED: &[Row<'static>] = &[
    (
        Before::Nothing,
        "resource r cell operation a a end",
        DeclFault::Unexpected(28),
    ),
    (
        Before::Nothing,
        "resource r cell operation a path a x end end",
        DeclFault::Unexpected(35),
    ),
    (
        Before::Nothing,
        "resource r cell operation a path a a end end",
        DeclFault::Unexpected(35),
    ),
    (
        Before::Nothing,
        "resource r cell operation a path { a { a } } end end",
        DeclFault::Unexpected(37),
    ),
    (Before::Opened, "a {", DeclFault::Unexpected(67)),
    (Before::Opened, "a (", DeclFault::Unexpected(67)),
    (Before::Operations, " a7 end", DeclFault::Unexpected(1196)),
    (Before::Operations, " b end", DeclFault::Unexpected(1196)),
    (Before::Names, " a7 end end", DeclFault::Unexpected(559)),
    (Before::Names, " a64 end end", DeclFault::Unexpected(559)),
    (Before::Paths, "path a path", DeclFault::Unexpected(2840)),
];

// A word or number past its limit would be unexpected, undeclared, one too many, or no capacity or bound.
const TOO_LONG: &[Row<'static>] = &[
    (
        Before::Nothing,
        "resource r cell operation a xxxxxxxxxxxxxxxxxxxxxxxxxxxxxxxxx",
        DeclFault::WordTooLong(28),
    ),
    (
        Before::Nothing,
        "resource r cell operation a path xxxxxxxxxxxxxxxxxxxxxxxxxxxxxxxxx end end",
        DeclFault::WordTooLong(33),
    ),
    (
        Before::Resources,
        "resource xxxxxxxxxxxxxxxxxxxxxxxxxxxxxxxxx cell operation b end",
        DeclFault::WordTooLong(2293),
    ),
    (
        Before::Nothing,
        "resource 0000000000",
        DeclFault::NumberTooLong(9),
    ),
    (
        Before::Nothing,
        "resource r queue 0000000000 operation a end",
        DeclFault::NumberTooLong(17),
    ),
    (
        Before::Nothing,
        "resource r cell operation a path { a : 0000000000 } end end",
        DeclFault::NumberTooLong(39),
    ),
];

// As many resources as a file may have.
fn resources(rt: &impl Abort, heap: Global) -> String {
    let mut text = String::new(heap);
    put_resources(rt, &mut text);
    text
}

// As many operations as a file may have.
fn operations(rt: &impl Abort, heap: Global) -> String {
    let mut text = String::new(heap);
    put(rt, &mut text, "resource r cell operation ");
    put_names(rt, &mut text, ",", 256);
    text
}

// A path of as many names as it may have, of one operation more.
fn names(rt: &impl Abort, heap: Global) -> String {
    let mut text = String::new(heap);
    put(
        rt,
        &mut text,
        "resource s cell operation b end resource r cell operation ",
    );
    put_names(rt, &mut text, ",", 65);
    put(rt, &mut text, " path ");
    put_names(rt, &mut text, ";", 64);
    text
}

// What stands before a row's text.
fn text_of(rt: &impl Abort, heap: Global, before: Before) -> String {
    let front = "resource r cell operation a ";
    match before {
        Before::Nothing => String::new(heap),
        Before::Resources => resources(rt, heap),
        Before::Operations => operations(rt, heap),
        Before::Names => names(rt, heap),
        Before::Paths => repeated(rt, heap, front, "path a end ", 255, ""),
        Before::Opened => repeated(rt, heap, "resource r cell operation a path {", "(", 31, ""),
    }
}

// Each text has the fault beside it.
fn expect_rows(rt: &impl Abort, heap: Global, rows: &[Row<'_>]) {
    for (before, back, want) in rows {
        let mut text = text_of(rt, heap, *before);
        put(rt, &mut text, back);
        expect(rt, heap, &text, Some(*want));
    }
}

#[test]
fn a_name_counts_before_its_number(rt: HostRuntime) {
    expect_rows(&rt, rt.alloc(), DUPLICATES);
    expect_rows(&rt, rt.alloc(), NAMES);
}

#[test]
fn depth_counts_before_nesting(rt: HostRuntime) {
    expect_rows(&rt, rt.alloc(), DEEP_AND_NESTED);
}

#[test]
fn grammar_counts_before_rules_and_depth(rt: HostRuntime) {
    expect_rows(&rt, rt.alloc(), UNEXPECTED);
}

#[test]
fn length_counts_before_grammar_and_rules(rt: HostRuntime) {
    expect_rows(&rt, rt.alloc(), TOO_LONG);
}
