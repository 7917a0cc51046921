//! Crashes at every place.

use crate::MemoryFile;
use crate::tests::declaration::{LINES, opened};
use std::alloc::Global;
use std::process::Abort;

// A file that a store has written: so many lines were synced, and the others weren't.
fn written(rt: &impl Abort, heap: Global, synced: usize) -> MemoryFile {
    let file = MemoryFile::new(heap, Vec::new(heap), u64::MAX);
    let mut store = opened(rt, heap, file).store;
    for (at, line) in LINES.iter().enumerate() {
        store.append(*line).expect(rt, "it is written");
        if at < synced {
            store.sync().expect(rt, "it is synced");
        }
    }
    store.into_device()
}

// What a crash leaves of it: so many of the fresh bytes, with zeros in the place of some.
fn left(
    rt: &impl Abort,
    heap: Global,
    file: &MemoryFile,
    count: usize,
    zeros: usize,
    upto: usize,
) -> MemoryFile {
    let mut bytes = file.kept().to_vec(heap).expect(rt, "memory");
    for (at, byte) in file.fresh().iter().enumerate() {
        if at < count {
            let byte = if zeros <= at && at < upto { 0 } else { *byte };
            bytes.push(byte).expect(rt, "memory");
        }
    }
    MemoryFile::new(heap, bytes, u64::MAX)
}

// How many lines are found in it, of which all are right.
fn found(rt: &impl Abort, heap: Global, file: MemoryFile) -> usize {
    let opened = opened(rt, heap, file);
    let count = opened.lines.len().min(LINES.len());
    assert_eq!(rt; opened.lines.as_slice(), &LINES[..count]);
    count
}

// How many line feeds the first of these bytes have.
fn feeds(bytes: &[u8], count: usize) -> usize {
    bytes
        .iter()
        .take(count)
        .filter(|byte| **byte == b'\n')
        .count()
}

#[test]
fn each_cut_leaves_the_lines_before_it(rt: HostRuntime) {
    let heap = rt.alloc();
    for synced in 0..8usize {
        let file = written(&rt, heap, synced);
        let fresh = file.fresh().len();
        for count in 0..fresh {
            let feeds = feeds(file.fresh(), count);
            let file = left(&rt, heap, &file, count, 0, 0);
            assert_eq!(rt; found(&rt, heap, file), synced.saturating_add(feeds));
        }
    }
}

#[test]
fn zeros_leave_the_lines_before_them(rt: HostRuntime) {
    let heap = rt.alloc();
    let file = written(&rt, heap, 3);
    let fresh = file.fresh().len();
    for at in 0..fresh {
        let feeds = feeds(file.fresh(), at);
        for width in [1usize, 2, 3, 5, 8, 13, 21, 34] {
            let file = left(&rt, heap, &file, fresh, at, at.saturating_add(width));
            assert_eq!(rt; found(&rt, heap, file), feeds.saturating_add(3));
        }
    }
}
