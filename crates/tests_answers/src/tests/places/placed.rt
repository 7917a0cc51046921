//! Where the fourteen faults of declarations are told to be: behind white space of each kind, and behind bytes past ASCII.

use crate::tests::places::limits::resources;
use crate::tests::places::told::told_of_declaration;
use std::alloc::Global;
use std::process::Abort;

/// A text of one line, and the offset and the length of the token at fault.
type Row<'a> = (&'a str, usize, usize);

/// Each fault but those of the two limits below.
const ROWS: &[Row<'static>] = &[
    ("resource r cell operation $", 26, 1),
    (
        "resource r cell operation abcdefghijklmnopqrstuvwxyz1234567",
        26,
        33,
    ),
    ("resource q queue 1234567890", 17, 10),
    ("resource r cell operation a path a b", 35, 1),
    (
        "resource r cell operation a path (((((((((((((((((((((((((((((((((",
        65,
        1,
    ),
    (
        "resource r cell operation a end resource r cell operation b end",
        41,
        1,
    ),
    ("resource r cell operation a, a end", 29, 1),
    ("resource r cell operation a path zz end end", 33, 2),
    ("resource r cell operation a path a ; a end end", 37, 1),
    ("resource r cell operation a path { { a } } end end", 35, 1),
    ("resource q queue 1025 operation a end", 17, 4),
    (
        "resource r cell operation a path { a : 65536 } end end",
        39,
        5,
    ),
];

/// White space before a text, the line and the column at which the text begins, and what leads to that column below a line.
type Space<'a> = (&'a str, usize, usize, &'a str);

const SPACES: &[Space<'static>] = &[
    ("", 1, 1, ""),
    ("\r\n", 2, 1, ""),
    ("\t\t", 1, 3, "\t\t"),
    (" \r\t", 1, 4, "  \t"),
    ("\n\t \r\n \t", 3, 3, " \t"),
];

// Appends a part so often.
fn push_often(rt: &impl Abort, text: &mut String, part: &str, often: usize) {
    for _ in 0..often {
        text.push_str(part).expect(rt, "there is memory");
    }
}

// The line below a text: what leads to a column, more spaces, and carets.
fn below(rt: &impl Abort, heap: Global, lead: &str, spaces: usize, carets: usize) -> String {
    let mut line = String::new(heap);
    push_often(rt, &mut line, "\n", 1);
    push_often(rt, &mut line, lead, 1);
    push_often(rt, &mut line, " ", spaces);
    push_often(rt, &mut line, "^", carets);
    push_often(rt, &mut line, "\n", 1);
    line
}

// Checks that a text is told to be at fault at this line and column, with this line below it.
fn check_told(rt: &impl Abort, heap: Global, text: &str, place: (usize, usize), below: &str) {
    let told = told_of_declaration(heap, text.as_bytes()).expect(rt, "there is memory");
    let (line, column) = place;
    let front = format!(in heap; "F:{line}:{column}: ").expect(rt, "there is memory");
    assert!(rt;
        told.as_str().starts_with(front.as_str()) && told.as_str().contains(below),
        "{told}"
    );
}

// Checks where a row is told to be at fault, behind so many lines and this white space.
fn check_behind(
    rt: &impl Abort,
    heap: Global,
    (front, lines): (&str, usize),
    space: &Space<'_>,
    row: &Row<'_>,
) {
    let (blank, line, column, lead) = *space;
    let (text, offset, width) = *row;
    let mut whole = String::new(heap);
    push_often(rt, &mut whole, front, 1);
    push_often(rt, &mut whole, blank, 1);
    push_often(rt, &mut whole, text, 1);
    let place = (lines.saturating_add(line), column.saturating_add(offset));
    let below = below(rt, heap, lead, offset, width);
    check_told(rt, heap, whole.as_str(), place, below.as_str());
}

// Checks where all rows are told to be at fault behind this white space.
fn check_rows(rt: &impl Abort, heap: Global, space: &Space<'_>) {
    for row in ROWS {
        check_behind(rt, heap, ("", 0), space, row);
    }
}

#[test]
fn behind_white_space(rt: HostRuntime) {
    for space in SPACES {
        check_rows(&rt, rt.alloc(), space);
    }
}

/// The 65th resource of a text, each on a line of its own.
const RESOURCE: Row<'static> = ("resource r64 cell operation a64 end", 9, 3);

#[test]
fn one_resource_too_many(rt: HostRuntime) {
    let front = resources(&rt, rt.alloc(), 64);
    for space in SPACES {
        check_behind(&rt, rt.alloc(), (front.as_str(), 64), space, &RESOURCE);
    }
}

// A line of so many bytes, with its line feed.
fn blank_line(rt: &impl Abort, heap: Global, bytes: usize) -> String {
    let mut line = String::new(heap);
    push_often(rt, &mut line, " ", bytes.saturating_sub(1));
    push_often(rt, &mut line, "\n", 1);
    line
}

#[test]
fn one_byte_too_many(rt: HostRuntime) {
    for space in SPACES {
        let bytes = 65_536usize.saturating_sub(space.0.len());
        let front = blank_line(&rt, rt.alloc(), bytes);
        check_behind(&rt, rt.alloc(), (front.as_str(), 1), space, &("x", 0, 1));
    }
}

// A letter, characters of two bytes, and two letters: the last is one byte too many.
#[test]
fn behind_bytes_past_ascii(rt: HostRuntime) {
    let heap = rt.alloc();
    let mut text = String::new(heap);
    push_often(&rt, &mut text, "a", 1);
    push_often(&rt, &mut text, "\u{e9}", 32_767);
    push_often(&rt, &mut text, "bx", 1);
    // Of the line, 49 of these characters and a letter are shown before the place.
    let below = below(&rt, heap, "", 50, 1);
    check_told(&rt, heap, text.as_str(), (1, 32_770), below.as_str());
}
