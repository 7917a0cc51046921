//! Systems to share, and attempts with the replies that they get.

use path_model::{Attempt, OpId, Reply};
use path_read::read;
use path_shelf::Device;
use path_system::System;
use path_workers::{Answer, Desk, DeskName, Pass, Steps};
use std::alloc::{Allocator, Global};
use std::process::Abort;
use std::sync::Wait;

/// An attempt, the place of its line and the reply to it.
pub(crate) type Row = (Attempt, Option<u64>, Reply);

/// One resource, in which every deposit is followed by a remove.
pub(crate) const SLOT: &[u8] =
    b"resource slot cell operation deposit, remove path deposit ; remove end end";

/// The room that the program has if none is given.
pub(crate) const ROOM: u32 = 4096;

/// The start of the first operation.
pub(crate) const FIRST: Attempt = Attempt::Start(OpId(0));

/// The start of the second operation.
pub(crate) const SECOND: Attempt = Attempt::Start(OpId(1));

/// Opens a system of the text, which has one resource, in this room, over this device.
pub(crate) fn open_system<D: Device>(
    rt: &impl Abort,
    alloc: Global,
    text: &[u8],
    room: u32,
    device: D,
) -> System<D> {
    let decl = read(alloc, text).expect(rt, "it is a declaration");
    let mut devices = Vec::new(alloc);
    assert!(rt; devices.push(device).is_ok());
    let system = System::open(alloc, decl, devices, room).ok();
    system.expect(rt, "it is opened")
}

/// Makes the attempt of the row, and checks its place and reply.
pub(crate) fn makes<L: DeskName, S: Steps, A: Allocator + Copy, R: Wait + Abort>(
    rt: &R,
    desk: &Desk<L, S>,
    pass: &mut Pass<L, A>,
    row: Row,
) {
    let (attempt, place, reply) = row;
    assert!(rt; desk.attempt(rt, pass, attempt) == Ok(Answer { place, reply }));
}

/// Makes the attempts of all rows.
pub(crate) fn makes_all<L: DeskName, S: Steps, A: Allocator + Copy, R: Wait + Abort>(
    rt: &R,
    desk: &Desk<L, S>,
    pass: &mut Pass<L, A>,
    rows: &[Row],
) {
    for row in rows {
        makes(rt, desk, pass, *row);
    }
}
