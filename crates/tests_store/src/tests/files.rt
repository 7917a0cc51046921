//! Stores over files of the operating system.

use crate::tests::declaration::{LINES, slot};
use path_file::{FileDevice, FileFault};
use path_store::{Opened, Store};
use std::fs::File;
use std::process::Abort;
use std::rt::{Env, Files};
use std::{env, fs, process};

const TEXT: &[u8] =
    b"journal 3 room 7\n1 start deposit: started 0\n+2 start remove: blocked 0\n+1 use 0 put 7: used 0\n";

// A path in the folder for temporary files that no process of another number has.
fn path<R: Env + AllocGlobal + Abort>(rt: &R, id: u32, name: &str) -> String {
    let folder = env::temp_dir(rt).expect(rt, "there is a folder");
    format!(in rt.alloc(); "{}/wanzoche-{id}-{name}", folder.as_str()).expect(rt, "memory")
}

// The store in the file at a path.
fn opened<R: Files<File = File> + AllocGlobal + Abort>(rt: &R, path: &str) -> Opened<FileDevice> {
    let file = FileDevice::open(rt, path).expect(rt, "the file is opened");
    match Store::open(rt.alloc(), slot(rt, rt.alloc()), 7, file) {
        Ok(opened) => opened,
        Err((fault, _file)) => panic!(rt; "it isn't opened: {fault:?}"),
    }
}

#[test]
fn a_file_has_what_was_written(rt: HostRuntime) {
    let path = path(&rt, process::id(rt.process()), "written");
    let mut store = opened(&rt, path.as_str()).store;
    store.commit(&LINES[..3]).expect(&rt, "they are written");
    drop(store);
    let text = fs::read(&rt, path.as_str()).expect(&rt, "it is read");
    fs::remove_file(&rt, path.as_str()).expect(&rt, "it is removed");
    assert_eq!(rt; text.as_slice(), TEXT);
}

#[test]
fn a_file_is_open_once(rt: HostRuntime) {
    let path = path(&rt, process::id(rt.process()), "once");
    let store = opened(&rt, path.as_str()).store;
    let second = FileDevice::open(&rt, path.as_str());
    let is_refused = matches!(second, Err(FileFault::InUse));
    drop(store);
    let third = FileDevice::open(&rt, path.as_str());
    let is_free = third.is_ok();
    drop(third);
    fs::remove_file(&rt, path.as_str()).expect(&rt, "it is removed");
    assert!(rt; is_refused && is_free);
}

#[test]
fn a_torn_end_is_cut_off(rt: HostRuntime) {
    let path = path(&rt, process::id(rt.process()), "torn");
    fs::write(&rt, path.as_str(), &TEXT[..80]).expect(&rt, "it is written");
    let opened = opened(&rt, path.as_str());
    assert_eq!(rt; opened.lines.as_slice(), &LINES[..2]);
    assert_eq!(rt; opened.cut, 9);
    drop(opened);
    let left = fs::read(&rt, path.as_str()).expect(&rt, "it is read");
    fs::remove_file(&rt, path.as_str()).expect(&rt, "it is removed");
    assert_eq!(rt; left.as_slice(), &TEXT[..71]);
}

/// A file that takes several reads.
#[test]
fn a_long_file_is_read_whole(rt: HostRuntime) {
    let path = path(&rt, process::id(rt.process()), "long");
    let mut text = TEXT[..17].to_vec(rt.alloc()).expect(&rt, "memory");
    for _ in 0..3000u32 {
        text.extend_from_slice(&TEXT[17..44]).expect(&rt, "memory");
    }
    fs::write(&rt, path.as_str(), text.as_slice()).expect(&rt, "it is written");
    let opened = opened(&rt, path.as_str());
    let (lines, cut) = (opened.lines.len(), opened.cut);
    drop(opened);
    fs::remove_file(&rt, path.as_str()).expect(&rt, "it is removed");
    assert_eq!(rt; (lines, cut), (3000, 0));
}
