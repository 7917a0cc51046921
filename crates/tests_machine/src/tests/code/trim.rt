//! Trimmed paths, and the listings that show them.

use crate::tests::code::listing::{
    BOOK, CROSS, LONE, Listed, PIPE, POOL, declared, expect_text, list_text, listed_code, lists,
    lists_with, read_by, trimmed,
};
use path_code::{Epilogue, Prologue, translate};
use path_decl::Decl;
use path_model::{OpId, OutOfMemory, PathId};
use path_trim::{Lean, LeanOp, LeanPath, Removed, kept, lean_listing, removed, trim};
use std::alloc::{Allocator, Global};
use std::process::Abort;
use test_support::{Refusing, refuse_in_turn};

const EQUAL: &str = "resource r cell operation a, b path a ; b end path ( a ; b ) end end";

const AFTER_EQUAL: &str =
    "resource r cell operation a, b path { a } end path { a } end path { a } , b end end";

const BOOK_LISTING: &str = "path 0 of book
removed m0
s0 = 1
c0 = 0
read: PP(c0,P(s0)) | VV(c0,V(s0))
write: P(s0) | V(s0)
";

const LONE_LISTING: &str = "path 0 of r
removed s0 c0 m0
a: - | -
";

const CROSS_LISTING: &str = "path 0 of r
removed s0 c0 m0
s1 = 0
a: - | V(s1)
b: P(s1) | -
";

const POOL_LISTING: &str = "path 0 of r
removed m0
s0 = 1
s1 = 2
c0 = 0
read: P(s1); PP(c0,P(s0)) | VV(c0,V(s0)); V(s1)
write: P(s0) | V(s0)
";

const PIPE_LISTING: &str = "path 0 of r
removed s0 c0 m0
s1 = 0
s2 = 2
a: P(s2) | V(s1)
b: P(s1) | V(s2)
";

const EQUAL_LISTING: &str = "path 0 of r
s0 = 1
s1 = 0
a: P(s0) | V(s1)
b: P(s1) | V(s0)
path 1 of r same as 0
";

// What is kept keeps its number, also after a path that is removed.
const AFTER_EQUAL_LISTING: &str = "path 0 of r
removed s0 c0 m0
a: - | -
path 1 of r same as 0
path 2 of r
removed m2
s2 = 1
c2 = 0
a: PP(c2,P(s2)) | VV(c2,V(s2))
b: P(s2) | V(s2)
";

// A text, and the listing of what trimming leaves of its code.
const LISTINGS: &[(&str, &str)] = &[
    (BOOK, BOOK_LISTING),
    (LONE, LONE_LISTING),
    (CROSS, CROSS_LISTING),
    (POOL, POOL_LISTING),
    (PIPE, PIPE_LISTING),
    (EQUAL, EQUAL_LISTING),
    (AFTER_EQUAL, AFTER_EQUAL_LISTING),
];

#[test]
fn listings(rt: HostRuntime) {
    lists(&rt, rt.alloc(), Listed::Lean, LISTINGS);
}

const NUMBERED_LISTING: &str = "path 0 of t
s0 = 1
e: P(s0) | V(s0)
path 1 of #1
s1 = 1
#1: P(s1) | V(s1)
";

// The names are those of another declaration, as far as it has them.
#[test]
fn numbers_without_names(rt: HostRuntime) {
    let text = "resource r cell operation a, b path a end path b end end";
    let names = "resource t cell operation e path e end end";
    lists_with(&rt, rt.alloc(), Listed::Lean, text, names, NUMBERED_LISTING);
}

const SECOND_SAME: Removed = Removed::SamePath(PathId(1), PathId(0));

// What is removed of two paths whose braces differ only in their bounds.
const OTHER_BOUNDS: &[Removed] = &[
    Removed::Semaphore(0),
    Removed::Counter(0),
    Removed::Mutex(0),
    Removed::Semaphore(2),
    Removed::Counter(1),
    Removed::Mutex(1),
];

// A text, and what is removed of its code.
const REMOVED: &[(&str, &[Removed])] = &[
    (EQUAL, &[SECOND_SAME]),
    // Other trees.
    (
        "resource r cell operation a, b, c path a ; b ; c end path a ; ( b ; c ) end end",
        &[],
    ),
    // The first equal path is named, not the nearest.
    (
        "resource r cell operation a, b path a end path b end path a end path (a) end end",
        &[
            Removed::SamePath(PathId(2), PathId(0)),
            Removed::SamePath(PathId(3), PathId(0)),
        ],
    ),
    // Bounds are compared.
    (
        "resource r cell operation a path { a : 2 } end path { ( a ) : 2 } end end",
        &[
            Removed::Semaphore(0),
            Removed::Counter(0),
            Removed::Mutex(0),
            SECOND_SAME,
        ],
    ),
    (
        "resource r cell operation a path { a : 2 } end path { ( a ) : 3 } end end",
        OTHER_BOUNDS,
    ),
    (
        "resource r cell operation a path { a : 2 } end path { ( a ) } end end",
        OTHER_BOUNDS,
    ),
];

// Checks that this was removed of the code of a text.
fn expect_removed(rt: &impl Abort, removed: &[Removed], want: &[Removed], text: &str) {
    assert_eq!(rt; removed, want, "at {text:?}");
}

fn expect_removed_of(rt: &impl Abort, heap: Global, text: &str, want: &[Removed]) {
    let decl = declared(rt, heap, text);
    let lean = trimmed(rt, heap, &decl);
    drop(decl);
    expect_removed(rt, removed(&lean), want, text);
    drop(lean);
}

fn expect_each_removed(rt: &impl Abort, heap: Global, rows: &[(&str, &[Removed])]) {
    for (text, want) in rows {
        expect_removed_of(rt, heap, text, want);
    }
}

#[test]
fn removals(rt: HostRuntime) {
    expect_each_removed(&rt, rt.alloc(), REMOVED);
}

// What trimming leaves of the operations of the readers and writers.
const BOOK_OPS: &[LeanOp] = &[
    LeanOp {
        op: OpId(0),
        prologue: Some(Prologue::PP {
            pair: 0,
            semaphore: 0,
        }),
        epilogue: Some(Epilogue::VV {
            pair: 0,
            semaphore: 0,
        }),
    },
    LeanOp {
        op: OpId(1),
        prologue: Some(Prologue::P(0)),
        epilogue: Some(Epilogue::V(0)),
    },
];

fn is_book(path: &LeanPath) -> bool {
    path.path == PathId(0)
        && path.semaphores.as_slice() == [(0, 1)].as_slice()
        && path.counters.as_slice() == [0].as_slice()
        && path.ops.as_slice() == BOOK_OPS
}

fn is_book_alone(paths: &[LeanPath]) -> bool {
    paths.len() == 1 && paths.iter().all(|path| is_book(path))
}

#[test]
fn fields_of_a_path(rt: HostRuntime) {
    let decl = declared(&rt, rt.alloc(), BOOK);
    let lean = trimmed(&rt, rt.alloc(), &decl);
    drop(decl);
    let is_book = is_book_alone(kept(&lean));
    drop(lean);
    assert!(rt; is_book);
}

// How many paths are kept of a declaration's code. A refused request hands back the code, which must have this listing.
fn count_kept<A: Allocator + Copy>(
    rt: &impl Abort,
    alloc: A,
    decl: &Decl<A>,
    heap: Global,
    want: &str,
) -> Result<usize, OutOfMemory> {
    let code = translate(alloc, decl)?;
    match trim(alloc, code) {
        Ok(lean) => {
            let count = kept(&lean).len();
            drop(lean);
            Ok(count)
        }
        Err((code, fault)) => {
            let listed = listed_code(rt, heap, decl, &code);
            drop(code);
            expect_text(rt, &listed, want);
            Err(fault)
        }
    }
}

// How many paths are kept of the code of a text. A refused request hands back the code, which must have this listing.
fn count_trimmed<A: Allocator + Copy>(
    rt: &impl Abort,
    alloc: A,
    text: &str,
    heap: Global,
    want: &str,
) -> Result<usize, OutOfMemory> {
    let decl = read_by(rt, alloc, text)?;
    let count = count_kept(rt, alloc, &decl, heap, want);
    drop(decl);
    count
}

// Refuses each request of reading, translating and trimming in turn; then this many paths must be kept.
fn refuse_while_trimming(rt: &impl Abort, heap: Global, text: &str, paths: usize) {
    let whole = list_text(rt, heap, Listed::Code, text);
    let want = whole.as_str();
    let refused = refuse_in_turn(heap, OutOfMemory, |refusing: &Refusing<Global>| {
        Ok(count_trimmed(rt, refusing, text, heap, want)? == paths)
    });
    assert_eq!(rt; refused, Ok(()));
}

#[test]
fn trimming_wants_memory(rt: HostRuntime) {
    refuse_while_trimming(&rt, rt.alloc(), LONE, 1);
    refuse_while_trimming(&rt, rt.alloc(), EQUAL, 1);
    refuse_while_trimming(&rt, rt.alloc(), BOOK, 1);
}

// Whether the listing of what is left is this one.
fn is_listed<A: Allocator + Copy>(
    alloc: A,
    decl: &Decl,
    lean: &Lean,
    want: &str,
) -> Result<bool, OutOfMemory> {
    let text = lean_listing(alloc, decl, lean)?;
    let is_so = text.as_str() == want;
    drop(text);
    Ok(is_so)
}

// Refuses each request of the listing of what is left in turn; then it must be this one.
fn refuse_while_listing(rt: &impl Abort, heap: Global, decl: &Decl, lean: &Lean, want: &str) {
    let refused = refuse_in_turn(heap, OutOfMemory, |refusing: &Refusing<Global>| {
        is_listed(refusing, decl, lean, want)
    });
    assert_eq!(rt; refused, Ok(()));
}

#[test]
fn listing_wants_memory(rt: HostRuntime) {
    let decl = declared(&rt, rt.alloc(), LONE);
    let lean = trimmed(&rt, rt.alloc(), &decl);
    refuse_while_listing(&rt, rt.alloc(), &decl, &lean, LONE_LISTING);
    drop(lean);
    drop(decl);
}
