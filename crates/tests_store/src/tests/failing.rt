//! Files that fail.

use crate::MemoryFile;
use crate::tests::declaration::{LINES, opened, slot};
use path_store::{DeviceFault, Store, StoreFault};
use std::alloc::Global;
use std::process::Abort;

// Writes each line and syncs it, and says how many were answered, and what is left if the fresh bytes are lost and if they are not.
fn answered(rt: &impl Abort, heap: Global, calls: u64) -> (usize, Vec<u8>, Vec<u8>) {
    let file = MemoryFile::new(heap, Vec::new(heap), calls);
    let (count, file) = match Store::open(heap, slot(rt, heap), 7, file) {
        Err((fault, file)) => {
            assert_eq!(rt; fault, StoreFault::Device(DeviceFault::Failed));
            (0, file)
        }
        Ok(opened) => {
            let mut store = opened.store;
            let mut count = 0usize;
            for line in LINES {
                if store.append(line).is_ok() && store.sync().is_ok() {
                    count = count.saturating_add(1);
                }
            }
            (count, store.into_device())
        }
    };
    let kept = file.kept().to_vec(heap).expect(rt, "memory");
    let mut all = file.kept().to_vec(heap).expect(rt, "memory");
    all.extend_from_slice(file.fresh()).expect(rt, "memory");
    (count, kept, all)
}

// How many lines are found.
fn found(rt: &impl Abort, heap: Global, bytes: Vec<u8>) -> usize {
    let opened = opened(rt, heap, MemoryFile::new(heap, bytes, u64::MAX));
    let count = opened.lines.len().min(LINES.len());
    assert_eq!(rt; opened.lines.as_slice(), &LINES[..count]);
    count
}

#[test]
fn no_line_that_was_answered_is_lost(rt: HostRuntime) {
    let heap = rt.alloc();
    for calls in 0..24u64 {
        let (count, kept, all) = answered(&rt, heap, calls);
        assert_eq!(rt; found(&rt, heap, kept), count);
        let more = found(&rt, heap, all);
        assert!(rt; more == count || more == count.saturating_add(1));
    }
}

#[test]
fn a_store_that_failed_is_broken(rt: HostRuntime) {
    let heap = rt.alloc();
    // Four calls open a new file; the fifth writes.
    let file = MemoryFile::new(heap, Vec::new(heap), 4);
    let mut store = opened(&rt, heap, file).store;
    assert_eq!(rt;
        store.append(LINES[0]),
        Err(StoreFault::Device(DeviceFault::Failed))
    );
    assert_eq!(rt; store.append(LINES[0]), Err(StoreFault::Broken));
    assert_eq!(rt; store.sync(), Err(StoreFault::Broken));
}

#[test]
fn a_commit_whose_sync_failed_is_broken(rt: HostRuntime) {
    let heap = rt.alloc();
    // Two lines are written; the sync fails.
    let file = MemoryFile::new(heap, Vec::new(heap), 6);
    let mut store = opened(&rt, heap, file).store;
    assert_eq!(rt;
        store.commit(&LINES[..2]),
        Err(StoreFault::Device(DeviceFault::Failed))
    );
    assert_eq!(rt; store.commit(&[]), Err(StoreFault::Broken));
    assert_eq!(rt; store.append(LINES[2]), Err(StoreFault::Broken));
}

/// A file that has its lines whole is read and synced, and nothing else.
#[test]
fn a_whole_file_is_synced_once(rt: HostRuntime) {
    let heap = rt.alloc();
    let text = b"journal 3 room 7\n1 start deposit: started 0\n".to_vec(heap);
    let file = MemoryFile::new(heap, text.expect(&rt, "memory"), 2);
    let opened = opened(&rt, heap, file);
    assert_eq!(rt; opened.lines.as_slice(), &LINES[..1]);
    assert_eq!(rt; opened.store.into_device().changes(), 1);
}
