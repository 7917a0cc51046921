//! Follows whose journal stands in a file.

use crate::tests::follows::ends::{ROOM, SLOT};
use cmd_follow::{Syncing, follow_stored};
use path_file::FileDevice;
use path_store::{Device, DeviceFault};
use std::alloc::{Allocator, Global};
use std::fs::File;
use std::process::Abort;
use std::rt::{Env, Files};
use std::{env, fs, process};
use tell_base::Status;

// A path in the folder for temporary files that no process of another number has.
fn path<R: Env + AllocGlobal + Abort>(rt: &R, id: u32, name: &str) -> String {
    let folder = env::temp_dir(rt).expect(rt, "there is a folder");
    format!(in rt.alloc(); "{}/wanzoche-{id}-{name}", folder.as_str()).expect(rt, "memory")
}

/// How a follow ended, and what it wrote.
type Ended = (Status, Vec<u8>, Vec<u8>);

// Follows this input over a device, with this room for a file that is begun; the device comes back.
fn followed_in<D: Device + Drop>(
    heap: Global,
    room: u32,
    syncing: Syncing,
    device: D,
    input: &str,
) -> (Ended, D) {
    let (mut out, mut err) = (Vec::new(heap), Vec::new(heap));
    let (status, device) = follow_stored(
        heap,
        SLOT.as_bytes(),
        room,
        syncing,
        device,
        &mut input.as_bytes(),
        &mut out,
        &mut err,
    );
    ((status, out, err), device)
}

// Follows this input over a device.
fn followed<D: Device + Drop>(heap: Global, syncing: Syncing, device: D, input: &str) -> Ended {
    let (ended, _device) = followed_in(heap, ROOM, syncing, device, input);
    ended
}

// Follows this input over the file at a path.
fn in_file<R: Files<File = File> + AllocGlobal + Abort>(
    rt: &R,
    path: &str,
    syncing: Syncing,
    input: &str,
) -> Ended {
    let device = FileDevice::open(rt, path).expect(rt, "the file is opened");
    followed(rt.alloc(), syncing, device, input)
}

// The bytes of the file at a path, which is then removed.
fn taken<R: Files<File = File> + AllocGlobal + Abort>(rt: &R, path: &str) -> Vec<u8> {
    let text = fs::read(rt, path).expect(rt, "it is read");
    fs::remove_file(rt, path).expect(rt, "it is removed");
    text
}

// Checks how a follow ended, and what it wrote.
fn check(rt: &impl Abort, ended: &Ended, status: Status, out: &str, err: &str) {
    assert_eq!(rt; std::str::from_utf8(&ended.1), Ok(out));
    assert_eq!(rt; std::str::from_utf8(&ended.2), Ok(err));
    assert_eq!(rt; ended.0, status);
}

const FIRST: &str = "1 start deposit\n2 start remove\n?\n1 use 0 put 7\n";

const FIRST_ANSWERS: &str =
    "1 start deposit: started 0\n2 start remove: blocked 0\nstartable\nblocked deposit 0\nblocked remove 0\n\
    live 0 1 deposit\nfrozen no\n1 use 0 put 7: used 0\n";

const FIRST_TEXT: &str =
    "journal 3 room 100\n1 start deposit: started 0\n2 start remove: blocked 0\n1 use 0 put 7: used 0\n";

#[test]
fn a_follow_goes_on_behind_its_journal(rt: HostRuntime) {
    let path = path(&rt, process::id(rt.process()), "goes_on");
    let first = in_file(&rt, path.as_str(), Syncing::Each, FIRST);
    check(
        &rt,
        &first,
        Status::Done,
        FIRST_ANSWERS,
        "journal: 0 lines found\n",
    );
    let then = in_file(
        &rt,
        path.as_str(),
        Syncing::Each,
        "1 finish 0\n2 start remove\n2 use 1 look",
    );
    check(
        &rt,
        &then,
        Status::Done,
        "1 finish 0: finished\n2 start remove: started 1\n2 use 1 look: used 7\n",
        "journal: 3 lines found\n",
    );
    let want = format!(in rt.alloc();
        "{FIRST_TEXT}1 finish 0: finished\n2 start remove: started 1\n2 use 1 look: used 7\n"
    ).expect(&rt, "memory");
    assert_eq!(rt; taken(&rt, path.as_str()).as_slice(), want.as_bytes());
}

#[test]
fn lines_that_are_synced_at_the_end_are_marked(rt: HostRuntime) {
    let path = path(&rt, process::id(rt.process()), "marked");
    let ended = in_file(&rt, path.as_str(), Syncing::Close, FIRST);
    check(
        &rt,
        &ended,
        Status::Done,
        FIRST_ANSWERS,
        "journal: 0 lines found\n",
    );
    assert_eq!(rt;
        taken(&rt, path.as_str()).as_slice(),
        b"journal 3 room 100\n1 start deposit: started 0\n+2 start remove: blocked 0\n+1 use 0 put 7: used 0\n".as_slice()
    );
}

#[test]
fn a_torn_end_is_cut_off(rt: HostRuntime) {
    let path = path(&rt, process::id(rt.process()), "torn");
    let text = format!(in rt.alloc(); "{FIRST_TEXT}1 fini").expect(&rt, "memory");
    fs::write(&rt, path.as_str(), text.as_bytes()).expect(&rt, "it is written");
    let ended = in_file(&rt, path.as_str(), Syncing::Each, "");
    check(
        &rt,
        &ended,
        Status::Done,
        "",
        "journal: 3 lines found, and 6 bytes of a torn end cut off\n",
    );
    assert_eq!(rt; taken(&rt, path.as_str()).as_slice(), FIRST_TEXT.as_bytes());
}

#[test]
fn the_room_is_that_of_the_file(rt: HostRuntime) {
    let path = path(&rt, process::id(rt.process()), "room");
    let text = b"journal 3 room 4\n1 start deposit: started 0\n".as_slice();
    fs::write(&rt, path.as_str(), text).expect(&rt, "it is written");
    let ended = in_file(
        &rt,
        path.as_str(),
        Syncing::Each,
        "2 finish 0\n2 finish 0\n2 finish 0\n1 finish 0\n",
    );
    check(
        &rt,
        &ended,
        Status::Done,
        "2 finish 0: not yours\n2 finish 0: not yours\n2 finish 0: no room\n1 finish 0: finished\n",
        "journal: 1 line found\n",
    );
    assert_eq!(rt;
        taken(&rt, path.as_str()).as_slice(),
        b"journal 3 room 4\n1 start deposit: started 0\n2 finish 0: not yours\n2 finish 0: not yours\n1 finish 0: finished\n".as_slice()
    );
}

// Checks with which status and words a file is refused, and that it isn't changed.
fn check_refused<R: Env + Files<File = File> + AllocGlobal + Abort>(
    rt: &R,
    id: u32,
    text: &str,
    status: Status,
    err: &str,
) {
    let path = path(rt, id, "refused");
    fs::write(rt, path.as_str(), text.as_bytes()).expect(rt, "it is written");
    let ended = in_file(rt, path.as_str(), Syncing::Each, FIRST);
    check(rt, &ended, status, "", err);
    assert_eq!(rt; taken(rt, path.as_str()).as_slice(), text.as_bytes());
}

#[test]
fn other_files_are_refused(rt: HostRuntime) {
    let id = process::id(rt.process());
    check_refused(
        &rt,
        id,
        "a letter\n",
        Status::TextRefused,
        "journal: other head\n",
    );
    check_refused(
        &rt,
        id,
        "journal 2 room 4096\n1 start deposit: started 0\n",
        Status::TextRefused,
        "journal: other head\n",
    );
    check_refused(
        &rt,
        id,
        "journal 3 room 4096\n1 start steal: started 0\n",
        Status::TextRefused,
        "text: undeclared in line 1\n",
    );
    check_refused(
        &rt,
        id,
        "journal 3 room 4096\n1 start deposit: started 0\n2 start remove: started 1\n",
        Status::Unsound,
        "journal: 2 lines found\njournal: wrong line 1\n",
    );
}

/// A file that takes nothing more after so many calls, for this reason, and counts its syncs.
#[derive(Drop)]
struct Failing {
    calls: u32,
    syncs: u32,
    fault: DeviceFault,
}

impl Failing {
    // One that is full then.
    fn full(calls: u32) -> Failing {
        let fault = DeviceFault::Full;
        Failing {
            calls,
            syncs: 0,
            fault,
        }
    }

    // Counts a call, or fails.
    fn called(&mut self) -> Result<(), DeviceFault> {
        if self.calls == 0 {
            return Err(self.fault);
        }
        self.calls -= 1;
        Ok(())
    }
}

impl Device for Failing {
    ghost holds = { λ f b. ⊥ };

    ghost may_leave = { λ f c. Unit {0} };

    ghost moment = { λ f. 0 };

    ghost left_since = { λ f t c. Unit {0} };

    ghost fails_with = { λ f fault. Unit {0} };

    ghost counts_now = { λ f t c le now. tt };

    ghost only_now = { λ f c left. tt };

    fn read<B: Allocator + Copy>(&mut self, alloc: B) -> Result<Vec<u8, B>, DeviceFault> {
        self.called()?;
        Ok(Vec::new(alloc))
    }

    fn front<B: Allocator + Copy>(
        &mut self,
        alloc: B,
        _size: usize,
    ) -> Result<Vec<u8, B>, DeviceFault> {
        self.read(alloc)
    }

    fn append(&mut self, _bytes: &[u8]) -> Result<(), DeviceFault> {
        self.called()
    }

    fn cut(&mut self, _size: usize) -> Result<(), DeviceFault> {
        self.called()
    }

    fn sync(&mut self) -> Result<(), DeviceFault> {
        self.syncs = self.syncs.saturating_add(1);
        self.called()
    }
}

// How many line feeds a text has.
fn feeds(text: &[u8]) -> usize {
    text.iter().filter(|byte| **byte == b'\n').count()
}

/// Opening an empty file takes five calls: two reads, and three that write its head. Then each line takes two.
#[test]
fn what_is_not_kept_is_not_answered(rt: HostRuntime) {
    let input = "1 start deposit\n2 start remove\n1 use 0 put 7\n";
    for calls in 0..12u32 {
        let device = Failing::full(calls);
        let (status, out, err) = followed(rt.alloc(), Syncing::Each, device, input);
        let answered = (calls.saturating_sub(5) / 2).min(3);
        assert_eq!(rt; feeds(&out), answered as usize, "{calls}");
        let want = if calls < 11 {
            Status::StreamFailed
        } else {
            Status::Done
        };
        assert_eq!(rt; status, want, "{calls}");
        assert!(rt;
            status == Status::Done || err.ends_with(b"journal: no space left\n"),
            "{calls}"
        );
    }
}

/// A line for which there is no memory isn't answered, and that is told once.
#[test]
fn no_memory_for_a_line_is_told_once(rt: HostRuntime) {
    let input = "1 start deposit\n2 start remove\n1 use 0 put 7\n";
    for calls in 5..11u32 {
        let mut device = Failing::full(calls);
        device.fault = DeviceFault::OutOfMemory;
        let ended = followed(rt.alloc(), Syncing::Each, device, input);
        assert_eq!(rt;
            feeds(&ended.1),
            (calls.saturating_sub(5) / 2) as usize,
            "{calls}"
        );
        assert_eq!(rt; ended.0, Status::NoMemory, "{calls}");
        assert_eq!(rt;
            std::str::from_utf8(&ended.2),
            Ok("journal: 0 lines found\nout of memory\n"),
            "{calls}"
        );
    }
}

/// Opening an empty file syncs it twice: before its head is written, and behind that.
#[test]
fn lines_are_synced_when_they_are_to_be(rt: HostRuntime) {
    let input = "1 start deposit\n2 start remove\n1 use 0 put 7\n";
    for (syncing, syncs) in [
        (Syncing::Each, 5u32),
        (Syncing::Close, 3),
        (Syncing::Never, 2),
    ] {
        let device = Failing::full(u32::MAX);
        let (ended, device) = followed_in(rt.alloc(), ROOM, syncing, device, input);
        assert_eq!(rt; ended.0, Status::Done);
        assert_eq!(rt; device.syncs, syncs, "{syncing:?}");
    }
}

/// The command line is at fault, and the file stays empty.
#[test]
fn a_room_that_no_journal_can_have_is_refused(rt: HostRuntime) {
    for room in [0u32, 1_048_577] {
        let device = Failing::full(2);
        let (ended, device) = followed_in(rt.alloc(), room, Syncing::Each, device, FIRST);
        check(&rt, &ended, Status::CommandRefused, "", "open: bad room\n");
        assert_eq!(rt; (device.calls, device.syncs), (1, 0));
    }
}

/// A torn head is cut off and told, and then written again.
#[test]
fn a_torn_head_is_told(rt: HostRuntime) {
    let path = path(&rt, process::id(rt.process()), "head");
    fs::write(&rt, path.as_str(), b"journal 3 ro".as_slice()).expect(&rt, "it is written");
    let ended = in_file(&rt, path.as_str(), Syncing::Each, "");
    check(
        &rt,
        &ended,
        Status::Done,
        "",
        "journal: 0 lines found, and 12 bytes of a torn end cut off\n",
    );
    assert_eq!(rt;
        taken(&rt, path.as_str()).as_slice(),
        b"journal 3 room 100\n".as_slice()
    );
}
