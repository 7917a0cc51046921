//! The laws of resources, and the faults of capacities.

use crate::tests::declarations::decl::{SEVERAL, expect, expect_faults, put, put_number};
use path_decl::law_of;
use path_lex::DeclFault;
use path_model::{Law, ResId};
use path_read::read;
use std::alloc::{Allocator, Global};
use std::process::Abort;
use test_support::{Refusing, refuse_in_turn};

const EACH_LAW: &str = "resource t tally operation a end resource c cell operation b path b end end
    resource q queue 2 operation d end resource r queue 1024operation e path e end end";

// A text, the number of a resource, and its law.
const LAWS: &[(&str, u32, Option<Law>)] = &[
    (EACH_LAW, 0, Some(Law::Tally)),
    (EACH_LAW, 1, Some(Law::Cell)),
    (EACH_LAW, 2, Some(Law::Queue(2))),
    (EACH_LAW, 3, Some(Law::Queue(1_024))),
    (EACH_LAW, 4, None),
    (SEVERAL, 0, Some(Law::Cell)),
    (SEVERAL, 1, Some(Law::Cell)),
    (SEVERAL, 2, None),
];

// The law of the resource of this number in a text.
fn law_in<A: Allocator + Copy>(
    alloc: A,
    text: &str,
    number: u32,
) -> Result<Option<Law>, DeclFault> {
    let decl = read(alloc, text.as_bytes())?;
    let law = law_of(&decl, ResId(number));
    drop(decl);
    Ok(law)
}

fn expect_laws(rt: &impl Abort, heap: Global, rows: &[(&str, u32, Option<Law>)]) {
    for (text, number, want) in rows {
        assert!(rt; law_in(heap, text, *number) == Ok(*want), "at {number}");
    }
}

#[test]
fn laws_of_resources(rt: HostRuntime) {
    expect_laws(&rt, rt.alloc(), LAWS);
}

const CAPACITIES: &[(&str, Option<DeclFault>)] = &[
    ("0", Some(DeclFault::BadCapacity(17))),
    ("00", Some(DeclFault::BadCapacity(17))),
    ("01", Some(DeclFault::BadCapacity(17))),
    ("0012", Some(DeclFault::BadCapacity(17))),
    ("1025", Some(DeclFault::BadCapacity(17))),
    ("999999999", Some(DeclFault::BadCapacity(17))),
    ("1234567890", Some(DeclFault::NumberTooLong(17))),
    ("1", None),
    ("10", None),
    ("1024", None),
];

// Checks that a declaration of one resource, q, and one operation, with this capacity, has this fault, or none.
fn expect_capacity(rt: &impl Abort, heap: Global, digits: &str, want: Option<DeclFault>) {
    let mut text = String::new(heap);
    put(rt, &mut text, "resource q queue ");
    put(rt, &mut text, digits);
    put(rt, &mut text, " operation a end");
    expect(rt, heap, &text, want);
}

fn expect_capacities(rt: &impl Abort, heap: Global, rows: &[(&str, Option<DeclFault>)]) {
    for (digits, want) in rows {
        expect_capacity(rt, heap, digits, *want);
    }
}

#[test]
fn capacities(rt: HostRuntime) {
    expect_capacities(&rt, rt.alloc(), CAPACITIES);
}

const UNEXPECTED_IN_LAWS: &[(&str, DeclFault)] = &[
    ("resource r", DeclFault::Unexpected(10)),
    ("resource r operation a end", DeclFault::Unexpected(11)),
    ("resource r 2 operation a end", DeclFault::Unexpected(11)),
    (
        "resource r queue2operation a end",
        DeclFault::Unexpected(11),
    ),
    (
        "resource r cell 2 operation a end",
        DeclFault::Unexpected(16),
    ),
    (
        "resource r tally 2 operation a end",
        DeclFault::Unexpected(17),
    ),
    (
        "resource r queue operation a end",
        DeclFault::Unexpected(17),
    ),
    ("resource r queue", DeclFault::Unexpected(16)),
    (
        "resource r queue 2 2 operation a end",
        DeclFault::Unexpected(19),
    ),
    (
        "resource r tally cell operation a end",
        DeclFault::Unexpected(17),
    ),
];

#[test]
fn unexpected_in_laws(rt: HostRuntime) {
    expect_faults(&rt, rt.alloc(), UNEXPECTED_IN_LAWS);
}

// The first token that breaks a rule counts; the grammar counts before the rules.
const CAPACITIES_IN_THE_ORDER_OF_TOKENS: &[(&str, DeclFault)] = &[
    (
        "resource q cell operation a end resource q queue 0 operation b end",
        DeclFault::DuplicateResource(41),
    ),
    (
        "resource q queue 0 operation a end resource q queue 0 operation b end",
        DeclFault::BadCapacity(17),
    ),
    (
        "resource q queue 0 operation a, a end",
        DeclFault::BadCapacity(17),
    ),
    (
        "resource q queue 0 operation a path x end end",
        DeclFault::BadCapacity(17),
    ),
    (
        "resource r cell operation a path x end end resource q queue 0 operation b end",
        DeclFault::Undeclared(33),
    ),
    ("resource q queue 0 operation a", DeclFault::Unexpected(30)),
    (
        "resource q queue 0 operation a end _",
        DeclFault::BadByte(35),
    ),
];

#[test]
fn capacities_in_the_order_of_tokens(rt: HostRuntime) {
    expect_faults(&rt, rt.alloc(), CAPACITIES_IN_THE_ORDER_OF_TOKENS);
}

// Checks that as many queues as a file may have, each with an operation, followed by this text, have this fault, or none.
fn after_queues(rt: &impl Abort, heap: Global, back: &str, want: Option<DeclFault>) {
    let mut text = String::new(heap);
    for number in 0..64 {
        put(rt, &mut text, "resource q");
        put_number(rt, &mut text, number);
        put(rt, &mut text, " queue 1 operation a");
        put_number(rt, &mut text, number);
        put(rt, &mut text, " end ");
    }
    put(rt, &mut text, back);
    expect(rt, heap, &text, want);
}

// The name of the 65th resource comes before its capacity.
#[test]
fn capacity_of_one_resource_too_many(rt: HostRuntime) {
    after_queues(&rt, rt.alloc(), "", None);
    let fault = Some(DeclFault::TooMany(2485));
    after_queues(&rt, rt.alloc(), "resource q queue 0 operation a end", fault);
}

// Refuses each request of reading the text in turn; then resource 1 must have this law.
fn refuse_while_reading_law(rt: &impl Abort, heap: Global, text: &str, law: Law) {
    let refused = refuse_in_turn(
        heap,
        DeclFault::OutOfMemory,
        |refusing: &Refusing<Global>| Ok(law_in(refusing, text, 1)? == Some(law)),
    );
    assert_eq!(rt; refused, Ok(()));
}

const QUEUE_SECOND: &str =
    "resource t tally operation a end resource q queue 12 operation b path b end end";

#[test]
fn reading_laws_wants_memory(rt: HostRuntime) {
    refuse_while_reading_law(&rt, rt.alloc(), QUEUE_SECOND, Law::Queue(12));
}
