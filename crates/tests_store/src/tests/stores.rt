//! Stores over a file that doesn't crash.

ghost use Rattle.path_model.specs.Rooms.{IsRoom};

use crate::MemoryFile;
use crate::tests::declaration::{LINES, opened, slot};
use path_journal::{Version, read_cut};
use path_lines::TextFault;
use path_store::{Store, StoreFault};
use std::alloc::Global;
use std::process::Abort;

const TEXT: &[u8] =
    b"journal 3 room 7\n1 start deposit: started 0\n2 start remove: blocked 0\n+1 use 0 put 7: used 0\n+1 finish 0: finished\n";

// An empty file.
fn empty(heap: Global) -> MemoryFile {
    MemoryFile::new(heap, Vec::new(heap), u64::MAX)
}

#[test]
fn lines_stand_in_the_file(rt: HostRuntime) {
    let heap = rt.alloc();
    let opened = opened(&rt, heap, empty(heap));
    assert!(rt; opened.lines.is_empty());
    let mut store = opened.store;
    store.append(LINES[0]).expect(&rt, "it is written");
    store.sync().expect(&rt, "it is synced");
    store.commit(&LINES[1..4]).expect(&rt, "they are written");
    let file = store.into_device();
    assert_eq!(rt; file.kept(), TEXT);
}

#[test]
fn lines_are_found_again(rt: HostRuntime) {
    let heap = rt.alloc();
    let text = TEXT.to_vec(heap).expect(&rt, "memory");
    let file = MemoryFile::new(heap, text, u64::MAX);
    let opened = opened(&rt, heap, file);
    assert_eq!(rt; opened.lines.as_slice(), &LINES[..4]);
    assert_eq!(rt; opened.cut, 0);
}

#[test]
fn the_first_line_behind_an_opening_has_no_mark(rt: HostRuntime) {
    let heap = rt.alloc();
    let text = TEXT.to_vec(heap).expect(&rt, "memory");
    let file = MemoryFile::new(heap, text, u64::MAX);
    let mut store = opened(&rt, heap, file).store;
    store.append(LINES[4]).expect(&rt, "it is written");
    store.append(LINES[5]).expect(&rt, "it is written");
    let file = store.into_device();
    assert_eq!(rt; file.kept(), TEXT);
    assert_eq!(rt;
        file.fresh(),
        b"2 start remove: started 1\n+2 use 1 take: not offered\n".as_slice()
    );
}

// The fault with which a file is refused.
fn refused(rt: &impl Abort, heap: Global, room: u32, text: &[u8]) -> Option<StoreFault>
    requires { IsRoom room }
{
    let text = text.to_vec(heap).expect(rt, "memory");
    let kept = text.to_vec(heap).expect(rt, "memory");
    let file = MemoryFile::new(heap, text, u64::MAX);
    match Store::open(heap, slot(rt, heap), room, file) {
        Ok(_) => None,
        Err((fault, file)) => {
            assert_eq!(rt; file.kept(), kept.as_slice());
            // Nor was it ever changed and put back.
            assert_eq!(rt; file.changes(), 0);
            Some(fault)
        }
    }
}

#[test]
fn other_files_are_refused_and_unchanged(rt: HostRuntime) {
    let heap = rt.alloc();
    assert_eq!(rt; refused(&rt, heap, 8, TEXT), Some(StoreFault::OtherHead));
    assert_eq!(rt;
        refused(&rt, heap, 7, b"a letter\nto a friend\n"),
        Some(StoreFault::OtherHead)
    );
    assert_eq!(rt;
        refused(&rt, heap, 7, b"journal 2 room 7\n"),
        Some(StoreFault::OtherHead)
    );
    let broken = b"journal 3 room 7\n1 start deposit: stated 0\n2 start remove: blocked 0\n";
    assert_eq!(rt;
        refused(&rt, heap, 7, broken),
        Some(StoreFault::Text(TextFault::BadLine(1)))
    );
    let other = b"journal 3 room 7\n1 start put: started 0\n";
    assert_eq!(rt;
        refused(&rt, heap, 7, other),
        Some(StoreFault::Text(TextFault::Undeclared(1)))
    );
}

#[test]
fn a_torn_head_is_written_again(rt: HostRuntime) {
    let heap = rt.alloc();
    for left in 0..18usize {
        let text = TEXT[..left.min(17)].to_vec(heap).expect(&rt, "memory");
        let file = MemoryFile::new(heap, text, u64::MAX);
        let opened = opened(&rt, heap, file);
        assert!(rt; opened.lines.is_empty());
        assert_eq!(rt; opened.cut, if left < 17 { left } else { 0 });
        assert_eq!(rt;
            opened.store.into_device().kept(),
            b"journal 3 room 7\n".as_slice()
        );
    }
}

#[test]
fn a_store_is_read_as_version_3(rt: HostRuntime) {
    let heap = rt.alloc();
    let decl = slot(&rt, heap);
    let journal = read_cut(heap, &decl, TEXT).expect(&rt, "it is a journal");
    assert!(rt; journal.version == Version::Three(7));
    assert_eq!(rt; journal.lines.as_slice(), &LINES[..4]);
    assert_eq!(rt; journal.bytes, TEXT.len());
}
