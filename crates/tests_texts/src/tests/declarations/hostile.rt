//! Declarations that are cut short, or have one byte changed.

use crate::tests::declarations::decl::fault_of;
use path_lex::DeclFault;
use std::alloc::Global;
use std::process::Abort;

// Declarations of cells and of a queue.
const DECLARATIONS: &[&str] = &[
    "resource slot cell operation deposit, remove path deposit ; remove end end",
    "resource book cell operation read, write path { read } , write end end",
    "resource r cell operation a, b path { a ; b } end end",
    "resource r cell operation a, b path { a } ; b end end",
    "resource r cell operation a, b path a ; b end path b ; a end end",
    "resource r cell operation a, b, c path a ; b end path a ; c end end",
    "resource q queue 1 operation a end",
];

// Whether the grammar refuses the text although its tokens are right.
fn is_refused(heap: Global, text: &[u8]) -> bool {
    matches!(fault_of(heap, text), Some(DeclFault::Unexpected(_)))
}

// Whether the first bad byte of the text is at this offset.
fn is_bad_at(heap: Global, text: &[u8], place: usize) -> bool {
    match fault_of(heap, text) {
        Some(DeclFault::BadByte(at)) => at as usize == place,
        _ => false,
    }
}

// Whether reading gives a result or any error but OutOfMemory.
fn is_answered(heap: Global, text: &[u8]) -> bool {
    fault_of(heap, text) != Some(DeclFault::OutOfMemory)
}

// The text with the byte at this offset changed to another.
fn changed(rt: &impl Abort, heap: Global, text: &[u8], place: usize, byte: u8) -> Vec<u8> {
    let mut copy = text.to_vec(heap).expect(rt, "enough memory");
    match copy.get_mut(place) {
        Some(old) => *old = byte,
        None => panic!(rt; "the text has no byte {place}"),
    }
    copy
}

// Checks that each front of the text, except the whole text, is refused.
fn refuses_fronts(rt: &impl Abort, heap: Global, text: &[u8]) {
    for (length, _) in text.iter().enumerate() {
        let (front, _) = text.split_at(length);
        assert!(rt; is_refused(heap, front), "up to {length}");
    }
}

#[test]
fn each_front_is_refused(rt: HostRuntime) {
    for text in DECLARATIONS {
        refuses_fronts(&rt, rt.alloc(), text.as_bytes());
    }
}

// Checks that each byte of the text, changed to this one, is the first bad byte.
fn expect_bad_anywhere(rt: &impl Abort, heap: Global, text: &[u8], byte: u8) {
    for (place, _) in text.iter().enumerate() {
        let copy = changed(rt, heap, text, place, byte);
        assert!(rt; is_bad_at(heap, &copy, place), "{byte} at {place}");
    }
}

#[test]
fn bytes_of_no_token(rt: HostRuntime) {
    for text in DECLARATIONS {
        expect_bad_anywhere(&rt, rt.alloc(), text.as_bytes(), 0x00);
        expect_bad_anywhere(&rt, rt.alloc(), text.as_bytes(), 0xFF);
    }
}

// An underscore is a bad byte if no letter is before it.
fn expect_bad_outside_words(rt: &impl Abort, heap: Global, text: &[u8]) {
    let mut is_in_word = false;
    for (place, byte) in text.iter().enumerate() {
        let copy = changed(rt, heap, text, place, b'_');
        assert!(rt; is_answered(heap, &copy), "at {place}");
        assert!(rt; is_bad_at(heap, &copy, place) != is_in_word, "at {place}");
        is_in_word = byte.is_ascii_alphabetic();
    }
}

#[test]
fn underscores(rt: HostRuntime) {
    for text in DECLARATIONS {
        expect_bad_outside_words(&rt, rt.alloc(), text.as_bytes());
    }
}

// Checks that the grammar refuses one more opening brace, and one instead of any other byte.
fn refuses_braces(rt: &impl Abort, heap: Global, text: &[u8]) {
    for (place, byte) in text.iter().enumerate() {
        let copy = changed(rt, heap, text, place, b'{');
        assert!(rt; is_refused(heap, &copy) == (*byte != b'{'), "at {place}");
    }
}

#[test]
fn opening_braces(rt: HostRuntime) {
    for text in DECLARATIONS {
        refuses_braces(&rt, rt.alloc(), text.as_bytes());
    }
}
