//! The code of paths, and the listings that show it.

use crate::tests::code::listing::{
    BOOK, CROSS, LONE, Listed, PIPE, POOL, declared, lists, lists_with, read_by, translated,
};
use path_code::{Code, Epilogue, OpCode, PathCode, Prologue, listing, translate};
use path_decl::Decl;
use path_model::{OpId, OutOfMemory, ResId};
use std::alloc::{Allocator, Global};
use std::process::Abort;
use test_support::{Refusing, refuse_in_turn};

const SEVERAL: &str =
    "resource r cell operation a, b, c path a ; b , c end path { b : 3 } ; { c } end end
    resource s cell operation d path ( { d } ) end end";

const BOOK_LISTING: &str = "path 0 of book
s0 = 1
c0 = 0
m0 = 1
read: PP(c0,m0,P(s0)) | VV(c0,m0,V(s0))
write: P(s0) | V(s0)
";

const LONE_LISTING: &str = "path 0 of r
s0 = 1
c0 = 0
m0 = 1
a: PP(c0,m0,P(s0)) | VV(c0,m0,V(s0))
";

const CROSS_LISTING: &str = "path 0 of r
s0 = 1
s1 = 0
c0 = 0
m0 = 1
a: PP(c0,m0,P(s0)) | V(s1)
b: P(s1) | VV(c0,m0,V(s0))
";

const POOL_LISTING: &str = "path 0 of r
s0 = 1
s1 = 2
c0 = 0
m0 = 1
read: P(s1); PP(c0,m0,P(s0)) | VV(c0,m0,V(s0)); V(s1)
write: P(s0) | V(s0)
";

const PIPE_LISTING: &str = "path 0 of r
s0 = 1
s1 = 0
s2 = 2
c0 = 0
m0 = 1
a: P(s2); PP(c0,m0,P(s0)) | V(s1)
b: P(s1) | VV(c0,m0,V(s0)); V(s2)
";

// Numbers count through the file.
const SEVERAL_LISTING: &str = "path 0 of r
s0 = 1
s1 = 0
a: P(s0) | V(s1)
b: P(s1) | V(s0)
c: P(s1) | V(s0)
path 1 of r
s2 = 1
s3 = 0
s4 = 3
c0 = 0
c1 = 0
m0 = 1
m1 = 1
b: P(s4); PP(c0,m0,P(s2)) | VV(c0,m0,V(s3)); V(s4)
c: PP(c1,m1,P(s3)) | VV(c1,m1,V(s2))
path 2 of s
s5 = 1
c2 = 0
m2 = 1
d: PP(c2,m2,P(s5)) | VV(c2,m2,V(s5))
";

// A text, and the listing of its code.
const LISTINGS: &[(&str, &str)] = &[
    ("resource r cell operation a end", ""),
    (BOOK, BOOK_LISTING),
    (LONE, LONE_LISTING),
    (CROSS, CROSS_LISTING),
    (POOL, POOL_LISTING),
    (PIPE, PIPE_LISTING),
    (SEVERAL, SEVERAL_LISTING),
];

#[test]
fn listings(rt: HostRuntime) {
    lists(&rt, rt.alloc(), Listed::Code, LISTINGS);
}

const NUMBERED: &str =
    "resource r cell operation a end resource s cell operation b, c path b ; c end end";

const NUMBERED_LISTING: &str = "path 0 of #1
s0 = 1
s1 = 0
d: P(s0) | V(s1)
#2: P(s1) | V(s0)
";

// The names are those of another declaration, as far as it has them.
#[test]
fn numbers_without_names(rt: HostRuntime) {
    let names = "resource t cell operation e, d end";
    lists_with(
        &rt,
        rt.alloc(),
        Listed::Code,
        NUMBERED,
        names,
        NUMBERED_LISTING,
    );
}

// The prologues and epilogues of the readers and writers.
const BOOK_OPS: &[OpCode] = &[
    OpCode {
        op: OpId(0),
        prologue: Prologue::PP {
            pair: 0,
            semaphore: 0,
        },
        epilogue: Epilogue::VV {
            pair: 0,
            semaphore: 0,
        },
    },
    OpCode {
        op: OpId(1),
        prologue: Prologue::P(0),
        epilogue: Epilogue::V(0),
    },
];

fn is_book(path: &PathCode<'_>) -> bool {
    path.resource == ResId(0)
        && path.semaphores.as_slice() == [(0, 1)].as_slice()
        && path.braces.as_slice() == [0].as_slice()
        && path.ops.as_slice() == BOOK_OPS
}

fn is_book_alone(paths: &[PathCode<'_>]) -> bool {
    paths.len() == 1 && paths.iter().all(|path| is_book(path))
}

#[test]
fn fields_of_a_path(rt: HostRuntime) {
    let decl = declared(&rt, rt.alloc(), BOOK);
    let code = translated(&rt, rt.alloc(), &decl);
    let is_book = is_book_alone(code.paths());
    drop(code);
    drop(decl);
    assert!(rt; is_book);
}

// How many paths the code of a declaration has.
fn count_paths<A: Allocator + Copy>(alloc: A, decl: &Decl<A>) -> Result<usize, OutOfMemory> {
    let code = translate(alloc, decl)?;
    let count = code.paths().len();
    drop(code);
    Ok(count)
}

// How many paths the code of a text has.
fn count_translated<A: Allocator + Copy>(
    rt: &impl Abort,
    alloc: A,
    text: &str,
) -> Result<usize, OutOfMemory> {
    let decl = read_by(rt, alloc, text)?;
    let count = count_paths(alloc, &decl);
    drop(decl);
    count
}

// Refuses each request of reading and translating the text in turn; then the code must have this many paths.
fn refuse_while_translating(rt: &impl Abort, heap: Global, text: &str, paths: usize) {
    let refused = refuse_in_turn(heap, OutOfMemory, |refusing: &Refusing<Global>| {
        Ok(count_translated(rt, refusing, text)? == paths)
    });
    assert_eq!(rt; refused, Ok(()));
}

#[test]
fn translating_wants_memory(rt: HostRuntime) {
    refuse_while_translating(&rt, rt.alloc(), LONE, 1);
    refuse_while_translating(&rt, rt.alloc(), SEVERAL, 3);
}

// Whether the code has this listing.
fn is_listed<A: Allocator + Copy>(
    alloc: A,
    code: &Code<'_>,
    want: &str,
) -> Result<bool, OutOfMemory> {
    let text = listing(alloc, code.decl(), code)?;
    let is_so = text.as_str() == want;
    drop(text);
    Ok(is_so)
}

// Refuses each request of the listing in turn; then it must be this one.
fn refuse_while_listing(rt: &impl Abort, heap: Global, code: &Code<'_>, want: &str) {
    let refused = refuse_in_turn(heap, OutOfMemory, |refusing: &Refusing<Global>| {
        is_listed(refusing, code, want)
    });
    assert_eq!(rt; refused, Ok(()));
}

#[test]
fn listing_wants_memory(rt: HostRuntime) {
    let decl = declared(&rt, rt.alloc(), LONE);
    let code = translated(&rt, rt.alloc(), &decl);
    refuse_while_listing(&rt, rt.alloc(), &code, LONE_LISTING);
    drop(code);
    drop(decl);
}
