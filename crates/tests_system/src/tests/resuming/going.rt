//! Journals, and systems that go on behind their lines.

use path_decl::Decl;
use path_journal::read_journal;
use path_model::{Law, Line, OutOfMemory, Reply};
use path_read::read;
use path_shelf::{Device, OwnDevice};
use path_system::{ResumeFault, System};
use std::alloc::{Allocator, Global};
use std::process::Abort;

/// A declaration of one resource, the law of that, and a journal over a device that had nothing or 0 in it.
pub(crate) type Case<'a> = (&'a [u8], Law, &'a [u8]);

/// One resource, in which every deposit is followed by a remove.
pub(crate) const SLOT: Case<'static> = (
    b"resource slot cell operation deposit, remove path deposit ; remove end end",
    Law::Cell,
    b"1 start deposit: started 0\n2 start remove: blocked 0\n1 use 0 put 7: used 0\n2 use 0 look: not yours\n\
1 finish 0: finished\n1 finish 0: stale\n2 start remove: started 1\n2 use 1 look: used 7\n2 use 1 take: not offered\n\
3 use 9 look: stale\n1 finish 1: not yours\n2 finish 1: finished\n",
);

/// A queue of two places, with two operations at once.
pub(crate) const QUEUE: Case<'static> = (
    b"resource q queue 2 operation push, pop path { push } , pop end end",
    Law::Queue(2),
    b"1 start push: started 0\n2 start push: started 1\n3 start pop: blocked 0\n1 use 0 take: empty\n1 use 0 put 5: used 1\n\
2 use 1 put 6: used 2\n1 use 0 put 9: full\n2 use 1 look: used 5\n2 use 1 take: used 5\n1 finish 0: finished\n\
1 use 1 put 4: not yours\n2 use 1 put 8: used 2\n2 finish 1: finished\n3 start pop: started 2\n3 use 2 take: used 6\n",
);

/// A tally without a path.
pub(crate) const TALLY: Case<'static> = (
    b"resource t tally operation add end",
    Law::Tally,
    b"7 start add: started 0\n8 start add: started 1\n7 use 0 add 4: used 4\n8 use 1 add 18446744073709551615: overflow\n\
8 use 1 look: used 4\n7 use 0 add 3: device failed\n7 use 0 add 3: used 7\n8 use 1 put 3: not offered\n7 finish 0: finished\n",
);

/// All of them.
pub(crate) const CASES: [Case<'static>; 3] = [SLOT, QUEUE, TALLY];

/// The room of each.
pub(crate) const ROOM: u32 = 64;

/// The declaration in a text.
pub(crate) fn declared(rt: &impl Abort, heap: Global, text: &[u8]) -> Decl {
    read(heap, text).expect(rt, "it is a declaration")
}

/// The lines of a journal.
pub(crate) fn lines_in(rt: &impl Abort, heap: Global, decl: &Decl, text: &[u8]) -> Vec<Line> {
    read_journal(heap, decl, text)
        .expect(rt, "it is a journal")
        .lines
}

/// A new device of this law, alone.
pub(crate) fn alone(rt: &impl Abort, heap: Global, law: Law) -> Vec<OwnDevice> {
    if let Law::Queue(capacity) = law {
        assert!(rt; 1 <= capacity && capacity <= 1024);
    }
    let device = OwnDevice::new(heap, law).expect(rt, "enough memory");
    let mut devices = Vec::new(heap);
    assert!(rt; devices.push(device).is_ok());
    devices
}

/// A system of this case behind these lines, or why there is none, with the devices.
pub(crate) type Going<D, A> = Result<System<D, A>, (ResumeFault, Vec<D, A>)>;

/// The system of a case behind these lines.
pub(crate) fn going(
    rt: &impl Abort,
    heap: Global,
    case: Case<'_>,
    lines: &[Line],
) -> Going<OwnDevice, Global> {
    let (text, law, _) = case;
    let decl = declared(rt, heap, text);
    let devices = alone(rt, heap, law);
    System::resume(heap, decl, devices, ROOM, lines)
}

/// Whether both lists have the same lines.
pub(crate) fn same(left: &[Line], right: &[Line]) -> bool {
    if left.len() != right.len() {
        return false;
    }
    for (one, other) in left.iter().zip(right) {
        if one != other {
            return false;
        }
    }
    true
}

/// The first lines, so many.
pub(crate) fn front(lines: &[Line], count: usize) -> &[Line] {
    if count <= lines.len() {
        &lines[..count]
    } else {
        lines
    }
}

/// Whether the reply says that a device failed.
pub(crate) fn says_failed(reply: Reply) -> bool {
    matches!(reply, Reply::DeviceFailed)
}
