//! Texts, and the declarations that are read from them.

use path_decl::{
    Decl, counts, op_name, operation, path_resource, paths_of, resource, resource_name,
    resource_of, tree_of,
};
use path_lex::{DeclFault, is_name};
use path_model::{Expr, OpId, PathId, ResId};
use path_read::read;
use std::alloc::{Allocator, Global};
use std::process::Abort;
use test_support::{Refusing, refuse_in_turn};

mod limits;
mod pairs;
mod printing;

const SLOT: &str = "resource slot cell operation deposit, remove path deposit ; remove end end";

pub(crate) const SEVERAL: &str =
    "resource r cell operation a, b, c path a ; b ; c end path b , a ; c end end
    resource s cell operation d, r path (d ,r) end path d;(r) end end";

// The fault of a text, if it has one.
pub(crate) fn fault_of(heap: Global, text: &[u8]) -> Option<DeclFault> {
    read(heap, text).err()
}

// Checks that the text has this fault, or none.
pub(crate) fn expect(rt: &impl Abort, heap: Global, text: &str, want: Option<DeclFault>) {
    assert_eq!(rt; fault_of(heap, text.as_bytes()), want, "at {text:?}");
}

// Checks that each text has the fault of its row.
pub(crate) fn expect_faults(rt: &impl Abort, heap: Global, rows: &[(&str, DeclFault)]) {
    for (text, want) in rows {
        expect(rt, heap, text, Some(*want));
    }
}

// Appends the piece to the text.
pub(crate) fn put(rt: &impl Abort, text: &mut String, piece: &str) {
    assert!(rt; text.push_str(piece).is_ok(), "enough memory");
}

// Appends the number to the text.
pub(crate) fn put_number(rt: &impl Abort, text: &mut String, number: u32) {
    assert!(rt; write!(text, "{number}").is_ok(), "enough memory");
}

// Appends the tree in signs, operators first, to the text.
fn draw(rt: &impl Abort, text: &mut String, tree: &Expr) {
    match tree {
        Expr::Op(op) => put_number(rt, text, op.0),
        Expr::Seq(left, right) => {
            put(rt, text, "(; ");
            draw(rt, text, left);
            put(rt, text, " ");
            draw(rt, text, right);
            put(rt, text, ")");
        }
        Expr::Alt(left, right) => {
            put(rt, text, "(, ");
            draw(rt, text, left);
            put(rt, text, " ");
            draw(rt, text, right);
            put(rt, text, ")");
        }
        Expr::Burst(inner) => {
            put(rt, text, "(* ");
            draw(rt, text, inner);
            put(rt, text, ")");
        }
        Expr::Counted(inner, most) => {
            put(rt, text, "(*");
            put_number(rt, text, u32::from(*most));
            put(rt, text, " ");
            draw(rt, text, inner);
            put(rt, text, ")");
        }
    }
}

// The drawn tree of a path, or `none`.
fn drawn(rt: &impl Abort, heap: Global, decl: &Decl, path: u32) -> String {
    let mut text = String::new(heap);
    match tree_of(decl, PathId(path)) {
        Some(tree) => draw(rt, &mut text, tree),
        None => put(rt, &mut text, "none"),
    }
    text
}

/// Checks that this text was written.
pub(crate) fn expect_text(rt: &impl Abort, text: &str, want: &str) {
    assert_eq!(rt; text, want);
}

// Checks that the tree of each path is drawn this way.
fn expect_drawn(rt: &impl Abort, heap: Global, decl: &Decl, rows: &[(u32, &str)]) {
    for (path, want) in rows {
        let text = drawn(rt, heap, decl, *path);
        expect_text(rt, &text, want);
    }
}

// Checks that the tree of each path of the text is drawn this way.
pub(crate) fn draws(rt: &impl Abort, heap: Global, text: &str, rows: &[(u32, &str)]) {
    let decl = declared(rt, heap, text);
    expect_drawn(rt, heap, &decl, rows);
    drop(decl);
}

// The declaration of a well-formed text.
pub(crate) fn declared(rt: &impl Abort, heap: Global, text: &str) -> Decl {
    match read(heap, text.as_bytes()) {
        Ok(decl) => decl,
        Err(fault) => panic!(rt; "{fault:?} in {text:?}"),
    }
}

/// A name, and the numbers of the operation and of the resource with this name.
type Named<'a> = (&'a str, Option<OpId>, Option<ResId>);

const NAMED: &[Named<'static>] = &[
    ("deposit", Some(OpId(0)), None),
    ("remove", Some(OpId(1)), None),
    ("slot", None, Some(ResId(0))),
    ("buffer", None, None),
];

fn found(decl: &Decl, name: &str) -> (Option<OpId>, Option<ResId>) {
    (operation(decl, name), resource(decl, name))
}

fn expect_found(rt: &impl Abort, decl: &Decl, rows: &[Named<'_>]) {
    for (name, op, own) in rows {
        assert!(rt; found(decl, name) == (*op, *own), "at {name}");
    }
}

#[test]
fn slot_by_name(rt: HostRuntime) {
    let decl = declared(&rt, rt.alloc(), SLOT);
    expect_found(&rt, &decl, NAMED);
    drop(decl);
}

/// A number, and the names of the operation and of the resource that have it.
type Numbered<'a> = (u32, Option<&'a str>, Option<&'a str>);

const NUMBERED: &[Numbered<'static>] = &[
    (0, Some("deposit"), Some("slot")),
    (1, Some("remove"), None),
    (2, None, None),
];

fn names_of(decl: &Decl, number: u32) -> (Option<&str>, Option<&str>) {
    (
        op_name(decl, OpId(number)),
        resource_name(decl, ResId(number)),
    )
}

fn expect_names(rt: &impl Abort, decl: &Decl, rows: &[Numbered<'_>]) {
    for (number, op, own) in rows {
        assert!(rt; names_of(decl, *number) == (*op, *own), "at {number}");
    }
}

#[test]
fn slot_by_number(rt: HostRuntime) {
    let decl = declared(&rt, rt.alloc(), SLOT);
    expect_names(&rt, &decl, NUMBERED);
    drop(decl);
}

const FIRST: Option<ResId> = Some(ResId(0));

const SECOND: Option<ResId> = Some(ResId(1));

/// A number, and the resources of its operation and of its path.
type Owned = (u32, Option<ResId>, Option<ResId>);

const OWNERS: &[Owned] = &[
    (0, FIRST, FIRST),
    (1, FIRST, FIRST),
    (2, FIRST, SECOND),
    (3, SECOND, SECOND),
    (4, SECOND, None),
    (5, None, None),
];

fn owners_of(decl: &Decl, number: u32) -> (Option<ResId>, Option<ResId>) {
    (
        resource_of(decl, OpId(number)),
        path_resource(decl, PathId(number)),
    )
}

fn expect_owners(rt: &impl Abort, decl: &Decl, rows: &[Owned]) {
    for (number, of_operation, of_path) in rows {
        assert!(rt;
            owners_of(decl, *number) == (*of_operation, *of_path),
            "at {number}"
        );
    }
}

#[test]
fn owners(rt: HostRuntime) {
    let decl = declared(&rt, rt.alloc(), SEVERAL);
    expect_owners(&rt, &decl, OWNERS);
    drop(decl);
}

// How many resources, operations and paths there are.
fn totals_of<A: Allocator + Copy>(decl: &Decl<A>) -> (u32, u32, u32) {
    let counts = counts(decl);
    (counts.resources, counts.operations, counts.paths)
}

// How many resources, operations and paths a text declares.
fn counted<A: Allocator + Copy>(alloc: A, text: &str) -> Result<(u32, u32, u32), DeclFault> {
    let decl = read(alloc, text.as_bytes())?;
    let totals = totals_of(&decl);
    drop(decl);
    Ok(totals)
}

const TOTALS: &[(&str, (u32, u32, u32))] = &[(SLOT, (1, 2, 1)), (SEVERAL, (2, 5, 4))];

fn expect_total(rt: &impl Abort, heap: Global, text: &str, want: (u32, u32, u32)) {
    assert_eq!(rt; counted(heap, text), Ok(want));
}

fn expect_totals(rt: &impl Abort, heap: Global, rows: &[(&str, (u32, u32, u32))]) {
    for (text, want) in rows {
        expect_total(rt, heap, text, *want);
    }
}

#[test]
fn totals(rt: HostRuntime) {
    expect_totals(&rt, rt.alloc(), TOTALS);
}

const TREES: &[(u32, &str)] = &[
    (0, "(; (; 0 1) 2)"),
    (1, "(; (, 1 0) 2)"),
    (2, "(, 3 4)"),
    (3, "(; 3 4)"),
    (4, "none"),
];

#[test]
fn several_paths(rt: HostRuntime) {
    draws(&rt, rt.alloc(), SEVERAL, TREES);
}

// The numbers of the paths, each after a space.
fn put_numbers(rt: &impl Abort, text: &mut String, paths: &[PathId]) {
    for path in paths {
        put(rt, text, " ");
        put_number(rt, text, path.0);
    }
}

// The numbers of the paths that name an operation, each after a space, or `none`.
fn listed(rt: &impl Abort, heap: Global, decl: &Decl, op: u32) -> String {
    let mut text = String::new(heap);
    match paths_of(decl, OpId(op)) {
        Some(paths) => put_numbers(rt, &mut text, paths),
        None => put(rt, &mut text, "none"),
    }
    text
}

const NAMING: &str =
    "resource r cell operation a, b, c path a ; b end path b end path a ; (b) end end
    resource s cell operation d path d end end";

const NAMED_BY: &[(u32, &str)] = &[(0, " 0 2"), (1, " 0 1 2"), (2, ""), (3, " 3"), (4, "none")];

fn expect_listed(rt: &impl Abort, heap: Global, decl: &Decl, rows: &[(u32, &str)]) {
    for (op, want) in rows {
        let text = listed(rt, heap, decl, *op);
        expect_text(rt, &text, want);
    }
}

#[test]
fn paths_that_name(rt: HostRuntime) {
    let decl = declared(&rt, rt.alloc(), NAMING);
    expect_listed(&rt, rt.alloc(), &decl, NAMED_BY);
    drop(decl);
}

// Refuses each request of reading the text in turn; then it must declare this many resources, operations and paths.
pub(crate) fn refuse_while_reading(
    rt: &impl Abort,
    heap: Global,
    text: &str,
    totals: (u32, u32, u32),
) {
    let refused = refuse_in_turn(
        heap,
        DeclFault::OutOfMemory,
        |refusing: &Refusing<Global>| Ok(counted(refusing, text)? == totals),
    );
    assert_eq!(rt; refused, Ok(()));
}

const THREE: &str = "resource r cell operation a, b, c path a ; ( b , c ) end path c end end";

#[test]
fn reading_wants_memory(rt: HostRuntime) {
    refuse_while_reading(&rt, rt.alloc(), THREE, (1, 3, 2));
}

// A text, and whether it is a name.
const NAMES: &[(&str, bool)] = &[
    ("a", true),
    ("Path_1", true),
    ("x2345678901234567890123456789012", true),
    ("x23456789012345678901234567890123", false),
    ("", false),
    ("1a", false),
    ("_a", false),
    ("a-b", false),
    ("queue", false),
];

fn expect_is_name(rt: &impl Abort, rows: &[(&str, bool)]) {
    for (text, want) in rows {
        assert!(rt; is_name(text.as_bytes()) == *want, "at {text:?}");
    }
}

#[test]
fn names(rt: HostRuntime) {
    expect_is_name(&rt, NAMES);
}
