//! Texts that are cut at each place, or changed at each byte.

use crate::tests::declaration::{LINES, slot};
use path_decl::Decl;
use path_journal::{read_cut, write_journal};
use path_lines::TextFault;
use std::alloc::Global;
use std::process::Abort;

// The text of the lines in version 1, 2 or 3, with marks at every second line.
fn text(rt: &impl Abort, heap: Global, decl: &Decl, version: u8) -> Vec<u8> {
    let room = if version == 2 { Some(9) } else { None };
    let plain = write_journal(heap, decl, room, &LINES).expect(rt, "memory");
    let mut bytes = Vec::new(heap);
    if version == 3 {
        bytes
            .extend_from_slice(b"journal 3 room 9\n")
            .expect(rt, "memory");
    }
    let mut marked = false;
    let mut begins = false;
    for byte in plain.as_bytes() {
        if begins && marked && version == 3 {
            bytes.push(b'+').expect(rt, "memory");
        }
        bytes.push(*byte).expect(rt, "memory");
        begins = *byte == b'\n';
        if begins {
            marked = !marked;
        }
    }
    bytes
}

// How many bytes the whole lines of a text have, and how many lines there are.
fn whole(text: &[u8]) -> (usize, usize) {
    let mut bytes = 0usize;
    let mut lines = 0usize;
    for (at, byte) in text.iter().enumerate() {
        if *byte == b'\n' {
            bytes = at.saturating_add(1);
            lines = lines.saturating_add(1);
        }
    }
    (bytes, lines)
}

// Checks each front of a text.
fn check_fronts(rt: &impl Abort, heap: Global, decl: &Decl, version: u8) {
    let text = text(rt, heap, decl, version);
    let heads = if version == 1 { 0usize } else { 1 };
    for count in 0..text.len() {
        let front = &text[..count];
        let (bytes, lines) = whole(front);
        let journal = read_cut(heap, decl, front).expect(rt, "it is a journal that was cut");
        assert_eq!(rt; journal.bytes, bytes, "cut at {count}");
        assert_eq!(rt;
            journal.lines.len(),
            lines.saturating_sub(heads),
            "cut at {count}"
        );
        let read = journal.lines.len().min(LINES.len());
        assert_eq!(rt; journal.lines.as_slice(), &LINES[..read]);
    }
}

#[test]
fn each_front_of_a_text_has_its_whole_lines(rt: HostRuntime) {
    let heap = rt.alloc();
    let decl = slot(&rt, heap);
    check_fronts(&rt, heap, &decl, 1);
    check_fronts(&rt, heap, &decl, 2);
    check_fronts(&rt, heap, &decl, 3);
}

// Checks a text with one byte changed: what is read are whole lines, all that were before the change, or else the line is told.
fn check_changed(rt: &impl Abort, heap: Global, decl: &Decl, text: &[u8], at: usize, heads: usize) {
    let (_, before) = whole(&text[..at.min(text.len())]);
    match read_cut(heap, decl, text) {
        Ok(journal) => {
            assert!(rt;
                journal.lines.len().saturating_add(heads) >= before,
                "changed at {at}"
            );
            let again = read_cut(heap, decl, &text[..journal.bytes.min(text.len())]).expect(
                rt,
                "what was read is a journal",
            );
            assert_eq!(rt; again.lines.as_slice(), journal.lines.as_slice());
            assert_eq!(rt; again.bytes, journal.bytes);
        }
        Err(fault) => {
            let line = match fault {
                TextFault::BadLine(line) => line,
                TextFault::Undeclared(line) => line,
                TextFault::TooLong => u32::MAX,
                TextFault::OutOfMemory => u32::MAX,
            };
            assert_eq!(rt; line as usize, before, "changed at {at}");
        }
    }
}

// Changes each of the last 200 bytes to this one.
fn check_changes(
    rt: &impl Abort,
    heap: Global,
    decl: &Decl,
    version: u8,
    shift: usize,
    byte: Option<u8>,
) {
    let text = text(rt, heap, decl, version);
    let heads = if version == 1 { 0usize } else { 1 };
    let first = text.len().saturating_sub(200).max(20);
    for at in first..text.len() {
        let mut changed = text.to_vec(heap).expect(rt, "memory");
        let other = changed[at.saturating_sub(shift).min(at)];
        changed[at] = byte.unwrap_or(other);
        check_changed(rt, heap, decl, &changed, at, heads);
    }
}

#[test]
fn a_changed_byte_is_told_or_cut_off(rt: HostRuntime) {
    let heap = rt.alloc();
    let decl = slot(&rt, heap);
    for version in [1u8, 2, 3] {
        check_changes(&rt, heap, &decl, version, 0, Some(0));
        check_changes(&rt, heap, &decl, version, 0, Some(0xFF));
        check_changes(&rt, heap, &decl, version, 27, None);
    }
}

#[test]
fn what_a_crash_leaves_behind_the_lines_is_told_apart(rt: HostRuntime) {
    let heap = rt.alloc();
    let decl = slot(&rt, heap);
    let mut bytes = text(&rt, heap, &decl, 2);
    let whole = bytes.len();
    bytes
        .extend_from_slice(b"1 start dep\0\0\0\0\0\n\0\0")
        .expect(&rt, "memory");
    let journal = read_cut(heap, &decl, &bytes).expect(&rt, "it is a journal that was cut");
    assert_eq!(rt; journal.bytes, whole);
    bytes
        .extend_from_slice(b"an old block\nof another file\n")
        .expect(&rt, "memory");
    let journal = read_cut(heap, &decl, &bytes).expect(&rt, "it is a journal that was cut");
    assert_eq!(rt; journal.bytes, whole);
    bytes
        .extend_from_slice(b"1 finish 4: stale\n")
        .expect(&rt, "memory");
    assert!(rt; read_cut(heap, &decl, &bytes).err() == Some(TextFault::BadLine(9)));
}
