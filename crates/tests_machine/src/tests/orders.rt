//! Orders beside gates over worked examples: who is withheld for whom, and who is next.

ghost use Rattle.std.specs.Prelude.{IfOk};
ghost use Rattle.path_order.specs.Beside.{AreReady};

use path_gate::{Gate, compile};
use path_model::{OpId, OutOfMemory, PathId};
use path_order::{Order, Ruling, Waiter};
use path_read::read;
use std::alloc::{Allocator, Global};
use std::process::Abort;
use test_support::{Refusing, refuse_in_turn};

// Readers overlap, and a writer is alone.
const BOOK: &[u8] = b"resource book cell operation read, write path { read } , write end end";

// A deposit and a removal take turns, deposit first.
const SLOT: &[u8] = b"resource slot cell operation deposit, remove path deposit ; remove end end";

// A worker of either kind leaves one place of each path for the third.
const TWO_POOLS: &[u8] = b"resource pools cell operation x, u, w \
    path { x , w : 2 } end path { u , w : 2 } end end";

// A lock beside the book.
const LOCK: &[u8] = b"resource book cell operation read, write, lock \
    path { read } , write end path lock end end";

const READ: OpId = OpId(0);

const WRITE: OpId = OpId(1);

const THIRD: OpId = OpId(2);

// A writer that has shut its door at once.
const WRITER: Waiter = Waiter {
    operation: 1,
    priority: 0,
    arrived: 1,
    shut_at: 0,
};

// Another, which came behind it.
const SECOND_WRITER: Waiter = Waiter {
    operation: 1,
    priority: 0,
    arrived: 2,
    shut_at: 0,
};

// A writer for whom nobody is withheld yet.
const NEW_WRITER: Waiter = Waiter {
    operation: 1,
    priority: 0,
    arrived: 1,
    shut_at: u64::MAX,
};

// One whose door was open until 5.
const OPENED_AT_5: Waiter = Waiter {
    operation: 1,
    priority: 0,
    arrived: 1,
    shut_at: 5,
};

// Readers that came at 3, 4, 5 and 6.
const READER: Waiter = Waiter {
    operation: 0,
    priority: 0,
    arrived: 3,
    shut_at: u64::MAX,
};

const READER_AT_4: Waiter = Waiter {
    operation: 0,
    priority: 0,
    arrived: 4,
    shut_at: u64::MAX,
};

const READER_AT_5: Waiter = Waiter {
    operation: 0,
    priority: 0,
    arrived: 5,
    shut_at: u64::MAX,
};

const READER_AT_6: Waiter = Waiter {
    operation: 0,
    priority: 0,
    arrived: 6,
    shut_at: u64::MAX,
};

// One that comes before those writers by its priority.
const URGENT_READER: Waiter = Waiter {
    operation: 0,
    priority: 1,
    arrived: 2,
    shut_at: 0,
};

// A removal and a deposit.
const REMOVAL: Waiter = Waiter {
    operation: 1,
    priority: 0,
    arrived: 1,
    shut_at: 0,
};

const DEPOSIT: Waiter = Waiter {
    operation: 0,
    priority: 0,
    arrived: 2,
    shut_at: u64::MAX,
};

// One who wants a place of both pools, and one who wants one of the first.
const BOTH_POOLS: Waiter = Waiter {
    operation: 2,
    priority: 0,
    arrived: 1,
    shut_at: 0,
};

const FIRST_POOL: Waiter = Waiter {
    operation: 0,
    priority: 0,
    arrived: 2,
    shut_at: u64::MAX,
};

// One who wants the lock.
const LOCKER: Waiter = Waiter {
    operation: 2,
    priority: 0,
    arrived: 2,
    shut_at: u64::MAX,
};

/// A gate, and the order beside it.
#[derive(Drop)]
struct Door<A: Allocator + Copy> {
    gate: Gate<A>,
    order: Order<A>,
}

/// What happens at a door.
#[derive(Clone, Copy)]
enum Happening {
    /// A start of the operation is admitted.
    Begins(OpId),
    /// An execution of it ends.
    Ends(OpId),
    /// While these wait and these run, one asks, and this is the ruling.
    Asks(&'static [Waiter], &'static [u32], Waiter, Ruling),
    /// While these wait and these run, this is the place of who is next.
    Next(&'static [Waiter], &'static [u32], Option<usize>),
}

// A door of the declaration in a text, with nothing in progress.
fn opened<A: Allocator + Copy>(alloc: A, text: &[u8]) -> Result<Door<A>, OutOfMemory>
    ensures ready { IfOk result (λ door. AreReady door.gate door.order.spares) }
{
    let Ok(decl) = read(alloc, text) else {
        return Err(OutOfMemory);
    };
    let gate = compile(alloc, &decl)?;
    let order = Order::open(alloc, &decl)?;
    if !order.fits(&gate) {
        return Err(OutOfMemory);
    }
    Ok(Door { gate, order })
}

// Starts the operation, if a path doesn't forbid it.
fn start<A: Allocator + Copy>(rt: &impl Abort, door: &mut Door<A>, op: OpId) -> bool
    requires ready { AreReady door.old.gate door.old.order.spares }
    ensures ready { AreReady door.new.gate door.new.order.spares }
{
    assert!(rt; door.gate.admitted() < 100);
    match door.gate.admit(op) {
        Ok(()) => true,
        Err(_) => false,
    }
}

// Ends an execution of the operation, if one is in progress.
fn finish<A: Allocator + Copy>(door: &mut Door<A>, op: OpId) -> bool
    requires ready { AreReady door.old.gate door.old.order.spares }
    ensures ready { AreReady door.new.gate door.new.order.spares }
{
    if door.gate.in_progress(op) > 0 {
        door.gate.release(op);
        true
    } else {
        false
    }
}

// Lets it happen, and checks what is told. Fails only if allocation fails.
fn happens<A: Allocator + Copy>(
    rt: &impl Abort,
    door: &mut Door<A>,
    happening: Happening,
) -> Result<(), OutOfMemory>
    requires ready { AreReady door.old.gate door.old.order.spares }
    ensures ready { AreReady door.new.gate door.new.order.spares }
{
    assert!(rt; door.gate.admitted() < 100);
    match happening {
        Happening::Begins(op) => assert!(rt; start(rt, door, op)),
        Happening::Ends(op) => assert!(rt; finish(door, op)),
        Happening::Asks(waiting, running, asking, want) => {
            let ruling = door.order.may_start(&door.gate, waiting, running, asking)?;
            assert_eq!(rt; ruling, want);
        }
        Happening::Next(waiting, running, want) => {
            let found = door.order.next(&door.gate, waiting, running)?;
            assert_eq!(rt; found, want);
        }
    }
    Ok(())
}

// Lets all of these happen at a door of the text. Fails only if allocation fails.
fn all_happen<A: Allocator + Copy>(
    rt: &impl Abort,
    alloc: A,
    text: &[u8],
    happenings: &[Happening],
) -> Result<(), OutOfMemory> {
    let mut door = opened(alloc, text)?;
    for happening in happenings {
        happens(rt, &mut door, *happening)?;
    }
    Ok(())
}

// A writer waits while one reads. Its way is clear, so another reader is withheld for it, but not one who reads already: it waits for
// nobody else's end, and the writer for its.
const A_WRITER_AMONG_READERS: &[Happening] = &[
    Happening::Begins(READ),
    Happening::Asks(&[], &[0], WRITER, Ruling::Refused(PathId(0))),
    Happening::Asks(&[WRITER], &[0], READER, Ruling::Withheld(0)),
    Happening::Asks(&[WRITER], &[], READER, Ruling::Goes),
    Happening::Next(&[WRITER, READER], &[0], None),
    Happening::Ends(READ),
    Happening::Next(&[WRITER, READER], &[], Some(0)),
    Happening::Begins(WRITE),
    Happening::Next(&[READER], &[1], None),
    Happening::Ends(WRITE),
    Happening::Next(&[READER], &[], Some(0)),
];

// While a writer has not shut its door, readers pass it; when the door has been open once, those do who had come before.
const AN_OPEN_DOOR: &[Happening] = &[
    Happening::Begins(READ),
    Happening::Asks(&[NEW_WRITER], &[0], READER, Ruling::Goes),
    Happening::Next(&[NEW_WRITER, READER], &[0], Some(1)),
    Happening::Asks(&[OPENED_AT_5], &[0], READER_AT_5, Ruling::Goes),
    Happening::Asks(&[OPENED_AT_5], &[0], READER_AT_6, Ruling::Withheld(0)),
    Happening::Next(&[OPENED_AT_5, READER_AT_6, READER_AT_4], &[0], Some(2)),
];

// A reader that comes before a writer by its priority isn't withheld for it.
const A_HIGHER_PRIORITY: &[Happening] = &[
    Happening::Begins(READ),
    Happening::Asks(&[WRITER], &[0], URGENT_READER, Ruling::Goes),
    Happening::Asks(&[URGENT_READER, WRITER], &[0], READER, Ruling::Withheld(1)),
];

// One who waits while it holds a read doesn't run: the writer's way isn't clear, and the read within the read goes.
const A_READ_WITHIN_A_READ: &[Happening] = &[
    Happening::Begins(READ),
    Happening::Next(&[WRITER, READER], &[], Some(1)),
];

// The removal waits first. Its way is not clear, since no deposit is there to end; so the deposit goes.
const A_REMOVAL_FIRST: &[Happening] = &[
    Happening::Asks(&[REMOVAL], &[], DEPOSIT, Ruling::Goes),
    Happening::Begins(OpId(0)),
    Happening::Next(&[REMOVAL], &[0], None),
    Happening::Ends(OpId(0)),
    Happening::Next(&[REMOVAL], &[], Some(0)),
];

// One place of the first path is free for w, and both of the second are taken: a further x would take it.
const A_PLACE_KEPT_FREE: &[Happening] = &[
    Happening::Begins(OpId(0)),
    Happening::Begins(OpId(1)),
    Happening::Begins(OpId(1)),
    Happening::Asks(&[BOTH_POOLS], &[0, 1, 1], FIRST_POOL, Ruling::Withheld(0)),
    Happening::Ends(OpId(0)),
    Happening::Asks(&[BOTH_POOLS], &[1, 1], FIRST_POOL, Ruling::Goes),
];

// Who holds what the writer doesn't wait for isn't withheld, nor is one who asks for it.
const ANOTHER_LOCK: &[Happening] = &[
    Happening::Begins(READ),
    Happening::Asks(&[WRITER], &[0], LOCKER, Ruling::Goes),
    Happening::Begins(THIRD),
    Happening::Asks(&[WRITER], &[0], READER, Ruling::Withheld(0)),
    Happening::Asks(&[], &[0], READER, Ruling::Goes),
];

// The second writer is the one for whom a reader is withheld, where nobody has shut a door before: each who waits is looked at.
const BEHIND_THE_SECOND: &[Happening] = &[
    Happening::Begins(READ),
    Happening::Asks(
        &[NEW_WRITER, SECOND_WRITER],
        &[0],
        READER,
        Ruling::Withheld(1),
    ),
];

#[test]
fn a_reader_is_withheld_for_a_writer(rt: HostRuntime) {
    let told = all_happen(&rt, rt.alloc(), BOOK, A_WRITER_AMONG_READERS);
    assert_eq!(rt; told, Ok(()));
}

#[test]
fn a_door_is_open_for_those_who_came_before(rt: HostRuntime) {
    let told = all_happen(&rt, rt.alloc(), BOOK, AN_OPEN_DOOR);
    assert_eq!(rt; told, Ok(()));
}

#[test]
fn a_higher_priority_comes_before(rt: HostRuntime) {
    let told = all_happen(&rt, rt.alloc(), BOOK, A_HIGHER_PRIORITY);
    assert_eq!(rt; told, Ok(()));
}

#[test]
fn each_who_waits_is_looked_at(rt: HostRuntime) {
    let told = all_happen(&rt, rt.alloc(), BOOK, BEHIND_THE_SECOND);
    assert_eq!(rt; told, Ok(()));
}

#[test]
fn a_read_within_a_read_goes(rt: HostRuntime) {
    let told = all_happen(&rt, rt.alloc(), BOOK, A_READ_WITHIN_A_READ);
    assert_eq!(rt; told, Ok(()));
}

#[test]
fn a_deposit_passes_the_removal_that_waits_for_it(rt: HostRuntime) {
    let told = all_happen(&rt, rt.alloc(), SLOT, A_REMOVAL_FIRST);
    assert_eq!(rt; told, Ok(()));
}

#[test]
fn a_place_is_kept_free(rt: HostRuntime) {
    let told = all_happen(&rt, rt.alloc(), TWO_POOLS, A_PLACE_KEPT_FREE);
    assert_eq!(rt; told, Ok(()));
}

#[test]
fn another_lock_is_not_withheld(rt: HostRuntime) {
    let told = all_happen(&rt, rt.alloc(), LOCK, ANOTHER_LOCK);
    assert_eq!(rt; told, Ok(()));
}

// Refuses each request in turn while all of these happen at a door of the text.
fn refuse_while_all_happen(rt: &impl Abort, heap: Global, text: &[u8], happenings: &[Happening]) {
    let refused = refuse_in_turn(heap, OutOfMemory, |refusing: &Refusing<Global>| {
        all_happen(rt, refusing, text, happenings)?;
        Ok(true)
    });
    assert_eq!(rt; refused, Ok(()));
}

#[test]
fn each_request_of_a_door_is_refused(rt: HostRuntime) {
    refuse_while_all_happen(&rt, rt.alloc(), BOOK, A_WRITER_AMONG_READERS);
}
