//! Systems that go on for longer than their journal has room: rotations, controllers, and a call for each attempt.

use crate::tests::systems::stepping::{SLOT, alone, contains, declared, steps, tried};
use path_model::{ActId, Attempt, Line, OpId, PathId, Reply, Verb};
use path_shelf::{Cell, Device};
use path_system::{Controller, FinishRefusal, StartRefusal, System, UseRefusal};
use std::alloc::Global;
use std::process::Abort;

/// The room of each system here.
const TWELVE: u32 = 12;

const DEPOSIT: OpId = OpId(0);

const REMOVE: OpId = OpId(1);

// The slot in a room of 12, over a cell that contains 3.
fn slot(rt: &impl Abort, alloc: Global) -> System<Cell> {
    let decl = declared(rt, alloc, SLOT).expect(rt, "enough memory");
    let devices = alone(rt, alloc, Cell::new(3));
    match tried(alloc, decl, devices, TWELVE) {
        Ok(system) => system,
        Err(_) => panic!(rt; "it was refused"),
    }
}

// Memory for this many lines.
fn places(rt: &impl Abort, alloc: Global, lines: u32) -> Vec<Line> {
    Vec::with_capacity(alloc, lines as usize).expect(rt, "enough memory")
}

// Rotates, and tells how many lines were given away.
fn rotated<D: Device>(rt: &impl Abort, alloc: Global, system: &mut System<D>) -> usize {
    match system.rotate(places(rt, alloc, TWELVE)) {
        Ok(lines) => lines.len(),
        Err(_) => panic!(rt; "there are places for all lines"),
    }
}

// Checks that the attempt gets this reply, if need be after a rotation, and tells how many lines that gave away.
fn lasts<D: Device>(
    rt: &impl Abort,
    alloc: Global,
    system: &mut System<D>,
    attempt: Attempt,
    want: Reply,
) -> usize {
    let mut reply = system.step(1, attempt);
    let mut given = 0;
    if reply == Reply::NoRoom {
        given = rotated(rt, alloc, system);
        reply = system.step(1, attempt);
    }
    assert_eq!(rt; reply, want);
    given
}

// Checks that an operation is started with this number and finished, and tells how many lines were given away.
fn round<D: Device>(
    rt: &impl Abort,
    alloc: Global,
    system: &mut System<D>,
    op: OpId,
    number: u64,
) -> usize {
    let act = ActId(number);
    let started = lasts(rt, alloc, system, Attempt::Start(op), Reply::Started(act));
    let finished = lasts(rt, alloc, system, Attempt::Finish(act), Reply::Finished);
    started.saturating_add(finished)
}

#[test]
fn a_room_of_twelve_takes_ten_thousand_attempts(rt: HostRuntime) {
    let mut system = slot(&rt, rt.alloc());
    let mut given = 0usize;
    for number in 0..2500u64 {
        let deposited = round(&rt, rt.alloc(), &mut system, DEPOSIT, 2 * number);
        let removed = round(&rt, rt.alloc(), &mut system, REMOVE, 2 * number + 1);
        given = given.saturating_add(deposited).saturating_add(removed);
    }
    assert_eq!(rt; given.saturating_add(system.journal().len()), 10_000);
    drop(system);
}

// Checks that a rotation gives both lines away, that a deposit, which is live, stays live, and how much room is left.
fn keeps_a_deposit(rt: &impl Abort, alloc: Global, system: &mut System<Cell>) {
    let given = rotated(rt, alloc, system);
    let controller = system.controller();
    let are_live = [controller.is_live(ActId(0)), controller.is_live(ActId(1))];
    let left = (system.journal().len(), controller.room_left());
    assert_eq!(rt; (given, are_live, left), (2, [true, false], (0, 11)));
}

#[test]
fn what_is_live_stays_live_over_a_rotation(rt: HostRuntime) {
    let mut system = slot(&rt, rt.alloc());
    steps(
        &rt,
        &mut system,
        &[
            (1, Attempt::Start(DEPOSIT), Reply::Started(ActId(0))),
            (1, Attempt::Apply(ActId(0), Verb::Put(7)), Reply::Used(3)),
        ],
    );
    keeps_a_deposit(&rt, rt.alloc(), &mut system);
    steps(
        &rt,
        &mut system,
        &[
            (2, Attempt::Start(REMOVE), Reply::Blocked(PathId(0))),
            (2, Attempt::Finish(ActId(0)), Reply::NotYours),
            (1, Attempt::Apply(ActId(0), Verb::Put(8)), Reply::Used(7)),
            (1, Attempt::Finish(ActId(0)), Reply::Finished),
            (2, Attempt::Start(REMOVE), Reply::Started(ActId(1))),
        ],
    );
    contains(&rt, &system, &[8]);
    drop(system);
}

// How many lines come back from a rotation into too few places.
fn given_back(rt: &impl Abort, alloc: Global, system: &mut System<Cell>) -> usize {
    match system.rotate(places(rt, alloc, TWELVE - 1)) {
        Ok(_) => panic!(rt; "a place is missing"),
        Err(back) => back.len(),
    }
}

#[test]
fn a_rotation_wants_places_for_all_lines(rt: HostRuntime) {
    let mut system = slot(&rt, rt.alloc());
    steps(
        &rt,
        &mut system,
        &[(1, Attempt::Start(DEPOSIT), Reply::Started(ActId(0)))],
    );
    let back = given_back(&rt, rt.alloc(), &mut system);
    let lines = system.journal().len();
    drop(system);
    assert_eq!(rt; (back, lines), (0, 1));
}

// How many activations are live, how many are listed, and how much room is left.
fn live_and_left(system: &System<Cell>) -> (u32, usize, u32) {
    let controller = system.controller();
    (
        controller.live_count(),
        controller.live().len(),
        controller.room_left(),
    )
}

// Checks what is refused before anything is live, and starts a deposit.
fn refuses_starts(rt: &impl Abort, system: &mut System<Cell>) {
    let controller = system.controller();
    let can_start = [controller.can_start(DEPOSIT), controller.can_start(REMOVE)];
    let started = [
        system.start(1, OpId(9)),
        system.start(1, REMOVE),
        system.start(1, DEPOSIT),
    ];
    let want = [
        Err(StartRefusal::UnknownOperation),
        Err(StartRefusal::Blocked(PathId(0))),
        Ok(ActId(0)),
    ];
    assert_eq!(rt; (can_start, started), ([Ok(()), Err(PathId(0))], want));
}

// Checks what is refused while the deposit is live.
fn refuses_others(rt: &impl Abort, system: &mut System<Cell>) {
    let act = ActId(0);
    let used = [
        system.use_device(1, act, Verb::Put(7)),
        system.use_device(1, act, Verb::Take),
        system.use_device(2, act, Verb::Look),
    ];
    let finished = system.finish(2, act);
    let want = [
        Ok(3),
        Err(UseRefusal::NotOffered),
        Err(UseRefusal::NotYours),
    ];
    assert_eq!(rt;
        (used, finished, live_and_left(system)),
        (want, Err(FinishRefusal::NotYours), (1, 1, 4))
    );
}

// Checks what is refused after the deposit's finish.
fn refuses_the_stale(rt: &impl Abort, system: &mut System<Cell>) {
    let act = ActId(0);
    let finished = [system.finish(1, act), system.finish(1, act)];
    let used = system.use_device(1, act, Verb::Look);
    let want = [Ok(()), Err(FinishRefusal::Stale)];
    assert_eq!(rt;
        (finished, used, live_and_left(system)),
        (want, Err(UseRefusal::Stale), (0, 0, 2))
    );
}

// Checks what is refused when the room is left for a finish alone.
fn refuses_for_room(rt: &impl Abort, system: &mut System<Cell>) {
    let act = ActId(1);
    let started = [system.start(1, REMOVE), system.start(1, DEPOSIT)];
    let used = system.use_device(1, act, Verb::Look);
    let finished = [system.finish(2, act), system.finish(1, act)];
    let want = [Ok(act), Err(StartRefusal::NoRoom)];
    assert_eq!(rt;
        (started, used, finished),
        (
            want,
            Err(UseRefusal::NoRoom),
            [Err(FinishRefusal::NoRoom), Ok(())]
        )
    );
}

#[test]
fn each_call_tells_its_own_refusals(rt: HostRuntime) {
    let mut system = slot(&rt, rt.alloc());
    refuses_starts(&rt, &mut system);
    refuses_others(&rt, &mut system);
    refuses_the_stale(&rt, &mut system);
    refuses_for_room(&rt, &mut system);
    drop(system);
}

// The slot in a room of 12, as a controller.
fn controlled_slot(rt: &impl Abort, alloc: Global) -> Controller<Cell> {
    let decl = declared(rt, alloc, SLOT).expect(rt, "enough memory");
    match Controller::open(alloc, decl, alone(rt, alloc, Cell::new(3)), TWELVE) {
        Ok(controller) => controller,
        Err(_) => panic!(rt; "it was refused"),
    }
}

// Checks that the attempt gets this reply.
fn controls(rt: &impl Abort, controller: &mut Controller<Cell>, attempt: Attempt, want: Reply) {
    assert_eq!(rt; controller.step(1, attempt), want);
}

// Checks that the operation is started with this number and finished, if need be after a rotation.
fn controlled_round(rt: &impl Abort, controller: &mut Controller<Cell>, op: OpId, act: ActId) {
    if controller.room_left() < 2 {
        controller.rotate();
    }
    controls(rt, controller, Attempt::Start(op), Reply::Started(act));
    controls(rt, controller, Attempt::Finish(act), Reply::Finished);
}

// Checks that the controller can be closed.
fn closes(rt: &impl Abort, controller: Controller<Cell>) {
    match controller.close() {
        Ok(()) => {}
        Err(_) => panic!(rt; "something is live"),
    }
}

#[test]
fn a_controller_goes_on_without_a_list_of_lines(rt: HostRuntime) {
    let mut controller = controlled_slot(&rt, rt.alloc());
    for number in 0..2500u64 {
        let op = if number % 2 == 0 { DEPOSIT } else { REMOVE };
        controlled_round(&rt, &mut controller, op, ActId(number));
    }
    assert!(rt; controller.is_idle());
    assert!(rt; controller.lines() <= TWELVE);
    closes(&rt, controller);
}
