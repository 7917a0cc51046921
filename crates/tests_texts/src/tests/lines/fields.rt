//! Fields of texts.

use path_fields::{after_line, at_end, cut, number, strip, until};
use path_lines::{Wanted, last};
use std::process::Abort;

// Whether a text begins with this number, and goes on with this rest.
fn begins_so(text: &str, value: u64, rest: &str) -> bool {
    number(text.as_bytes()) == Some((value, rest.as_bytes()))
}

fn check_beginnings(rt: &impl Abort, rows: &[(&str, u64, &str)]) {
    for (text, value, rest) in rows {
        assert!(rt; begins_so(text, *value, rest), "at {text}");
    }
}

const NUMBERS: [(&str, u64, &str); 6] = [
    ("0", 0, ""),
    ("7 put", 7, " put"),
    ("0 01", 0, " 01"),
    ("4096\n", 4096, "\n"),
    ("1a", 1, "a"),
    ("18446744073709551615:", u64::MAX, ":"),
];

#[test]
fn numbers(rt: HostRuntime) {
    check_beginnings(&rt, &NUMBERS);
}

fn begins_with_a_number(text: &str) -> bool {
    number(text.as_bytes()).is_some()
}

fn check_no_beginnings(rt: &impl Abort, texts: &[&str]) {
    for text in texts {
        assert!(rt; !begins_with_a_number(text), "at {text}");
    }
}

const NO_NUMBERS: [&str; 10] = [
    "",
    "00",
    "01",
    "+1",
    "-1",
    " 1",
    "a1",
    "18446744073709551616",
    "99999999999999999999",
    "184467440737095516150",
];

#[test]
fn no_numbers(rt: HostRuntime) {
    check_no_beginnings(&rt, &NO_NUMBERS);
}

// The two parts of a text at the first space.
fn parts(text: &[u8]) -> Option<(&[u8], &[u8])> {
    cut(text, b' ')
}

// The text up to its first line feed, and the text from there on.
fn line_and_rest(text: &[u8]) -> (&[u8], &[u8]) {
    until(text, b'\n')
}

#[test]
fn cuts_at_the_first(rt: HostRuntime) {
    let cut = [parts(b"1 use 0"), parts(b"")];
    assert!(rt; cut == [Some((b"1".as_slice(), b"use 0".as_slice())), None]);
}

#[test]
fn lines_and_what_follows(rt: HostRuntime) {
    let lines = [line_and_rest(b"a\nb\n"), line_and_rest(b"a")];
    let first = (b"a".as_slice(), b"\nb\n".as_slice());
    assert!(rt; lines == [first, (b"a".as_slice(), b"".as_slice())]);
}

// What follows a word in a text.
fn put(text: &[u8]) -> Option<&[u8]> {
    strip(text, b"put ")
}

#[test]
fn strips_a_front(rt: HostRuntime) {
    let rests = [put(b"put 7"), put(b"put "), put(b"pu"), put(b"add 7")];
    assert!(rt; rests == [Some(b"7".as_slice()), Some(b"".as_slice()), None, None]);
}

// The text, if a line ends there.
fn line_end(text: &[u8]) -> Option<&[u8]> {
    at_end(text)
}

#[test]
fn ends_of_lines(rt: HostRuntime) {
    let ends = [
        line_end(b""),
        line_end(b"\nx"),
        line_end(b"x"),
        line_end(b"\r\n"),
    ];
    assert!(rt; ends == [Some(b"".as_slice()), Some(b"\nx".as_slice()), None, None]);
}

// The number that is a whole line, and the rest of the text.
fn ending(text: &[u8]) -> Option<(u64, &[u8])> {
    last(text, u64::MAX, Wanted::Value).ok()
}

#[test]
fn numbers_at_ends_of_lines(rt: HostRuntime) {
    let endings = [
        ending(b"7\n8"),
        ending(b"18446744073709551615"),
        ending(b"7 \n"),
        ending(b"07\n"),
        ending(b"\n"),
    ];
    let seven = Some((7, b"\n8".as_slice()));
    let most = Some((u64::MAX, b"".as_slice()));
    assert!(rt; endings == [seven, most, None, None, None]);
}

// What comes after a line of two bytes.
fn after_two(text: &[u8]) -> &[u8] {
    after_line(text, text.len().min(2))
}

#[test]
fn what_comes_after_a_line(rt: HostRuntime) {
    let rests = [after_two(b"ab\ncd"), after_two(b"ab\n"), after_two(b"ab")];
    assert!(rt; rests == [b"cd".as_slice(), b"".as_slice(), b"".as_slice()]);
}
