//! Equal declarations, and equal trees.

use crate::tests::declarations::decl::declared;
use path_decl::{Decl, is_same_declaration, is_same_tree, tree_of};
use path_model::PathId;
use std::alloc::Global;
use std::process::Abort;

const SLOT: &str = "resource r cell operation a, b path a ; b end end";

// Two texts, whether their declarations are equal, and whether the trees of their first paths are.
const PAIRS: &[(&str, &str, bool, bool)] = &[
    (SLOT, SLOT, true, true),
    (
        SLOT,
        "resource r cell operation a,b path(a);b end end",
        true,
        true,
    ),
    (
        SLOT,
        "resource s cell operation a, b path a ; b end end",
        false,
        true,
    ),
    (
        SLOT,
        "resource r tally operation a, b path a ; b end end",
        false,
        true,
    ),
    (
        SLOT,
        "resource r cell operation a, c path a ; c end end",
        false,
        true,
    ),
    (
        SLOT,
        "resource r cell operation a, b path b ; a end end",
        false,
        false,
    ),
    (
        SLOT,
        "resource r cell operation a, b path a , b end end",
        false,
        false,
    ),
    (SLOT, "resource r cell operation a, b end", false, false),
    (
        SLOT,
        "resource r cell operation a, b path a ; b end path a end end",
        false,
        true,
    ),
    (
        "resource r cell operation a path { a : 2 } end end",
        "resource r cell operation a path { a : 3 } end end",
        false,
        false,
    ),
    (
        "resource r cell operation a path { a : 2 } end end",
        "resource r cell operation a path { a } end end",
        false,
        false,
    ),
];

// Whether both declarations have a first path, and the trees of these are equal.
fn has_same_first_tree(one: &Decl, other: &Decl) -> bool {
    match (tree_of(one, PathId(0)), tree_of(other, PathId(0))) {
        (Some(left), Some(right)) => is_same_tree(left, right),
        _ => false,
    }
}

// Whether the declarations of the texts are equal, and whether the trees of their first paths are.
fn compared(rt: &impl Abort, heap: Global, one: &str, other: &str) -> (bool, bool) {
    let one = declared(rt, heap, one);
    let other = declared(rt, heap, other);
    let whole = is_same_declaration(&one, &other);
    let first = has_same_first_tree(&one, &other);
    drop(one);
    drop(other);
    (whole, first)
}

fn expect_pairs(rt: &impl Abort, heap: Global, rows: &[(&str, &str, bool, bool)]) {
    for (one, other, whole, first) in rows {
        let are_as_told = compared(rt, heap, one, other) == (*whole, *first);
        assert!(rt; are_as_told, "at {other:?}");
    }
}

#[test]
fn equal_declarations(rt: HostRuntime) {
    expect_pairs(&rt, rt.alloc(), PAIRS);
}
