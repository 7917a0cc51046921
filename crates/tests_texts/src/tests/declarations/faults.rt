//! Faults of texts, and their messages.

use crate::tests::declarations::decl::{expect_faults, expect_text};
use path_lex::DeclFault;
use std::alloc::Global;
use std::process::Abort;

const FIRST_FAULTS: &[(&str, DeclFault)] = &[
    ("", DeclFault::Unexpected(0)),
    (
        "resource r cell operation a, b path a ;",
        DeclFault::Unexpected(39),
    ),
    ("resource \u{C3}", DeclFault::BadByte(9)),
    ("resource _r", DeclFault::BadByte(9)),
    ("resource 7_", DeclFault::BadByte(10)),
];

#[test]
fn first_faults(rt: HostRuntime) {
    expect_faults(&rt, rt.alloc(), FIRST_FAULTS);
}

const UNEXPECTED_TOKENS: &[(&str, DeclFault)] = &[
    ("resource resource", DeclFault::Unexpected(9)),
    (
        "resource r cell operation a, end",
        DeclFault::Unexpected(29),
    ),
    (
        "resource r cell operation a end end",
        DeclFault::Unexpected(32),
    ),
];

#[test]
fn unexpected_tokens(rt: HostRuntime) {
    expect_faults(&rt, rt.alloc(), UNEXPECTED_TOKENS);
}

const BROKEN_RULES: &[(&str, DeclFault)] = &[
    (
        "resource r cell operation a, b path a ; ( b , a ) end end",
        DeclFault::RepeatedName(46),
    ),
    (
        "resource r cell operation a, a end",
        DeclFault::DuplicateOperation(29),
    ),
    (
        "resource r cell operation a end resource r cell operation b end",
        DeclFault::DuplicateResource(41),
    ),
    (
        "resource r cell operation a end resource t cell operation b path a end end",
        DeclFault::Undeclared(65),
    ),
    (
        "resource r cell operation a path x end end",
        DeclFault::Undeclared(33),
    ),
];

#[test]
fn broken_rules(rt: HostRuntime) {
    expect_faults(&rt, rt.alloc(), BROKEN_RULES);
}

// The later token counts before the earlier one, because its fault counts first.
const STAGES: &[(&str, DeclFault)] = &[
    (
        "resource r cell operation a, a end 1234567890 _",
        DeclFault::BadByte(46),
    ),
    (
        "resource r cell operation a, a end 1234567890",
        DeclFault::NumberTooLong(35),
    ),
    (
        "resource r cell operation a, a end 123456789",
        DeclFault::Unexpected(35),
    ),
];

#[test]
fn stages(rt: HostRuntime) {
    expect_faults(&rt, rt.alloc(), STAGES);
}

// A fault, and its text.
const TOLD: &[(DeclFault, &str)] = &[
    (DeclFault::TooLong, "text too long"),
    (DeclFault::BadByte(9), "bad byte at 9"),
    (DeclFault::WordTooLong(9), "word too long at 9"),
    (DeclFault::NumberTooLong(35), "number too long at 35"),
    (DeclFault::Unexpected(0), "unexpected at 0"),
    (DeclFault::TooDeep(65), "too deep at 65"),
    (DeclFault::DuplicateResource(41), "duplicate resource at 41"),
    (
        DeclFault::DuplicateOperation(29),
        "duplicate operation at 29",
    ),
    (DeclFault::Undeclared(65), "undeclared at 65"),
    (DeclFault::RepeatedName(46), "repeated name at 46"),
    (DeclFault::NestedBraces(42), "nested braces at 42"),
    (DeclFault::BadCapacity(17), "bad capacity at 17"),
    (DeclFault::BadCount(39), "bad count at 39"),
    (DeclFault::TooMany(527), "too many at 527"),
    (DeclFault::OutOfMemory, "out of memory"),
];

// The message of a fault.
fn told(rt: &impl Abort, heap: Global, fault: DeclFault) -> String {
    format!(in heap; "{fault}").expect(rt, "enough memory")
}

fn expect_told(rt: &impl Abort, heap: Global, rows: &[(DeclFault, &str)]) {
    for (fault, want) in rows {
        let text = told(rt, heap, *fault);
        expect_text(rt, &text, want);
    }
}

#[test]
fn fault_texts(rt: HostRuntime) {
    expect_told(&rt, rt.alloc(), TOLD);
}
