//! Traces over devices: the caller's, and those that don't fit.

use crate::tests::traces::endings::{Ending, check_ending, refuse_each_request};
use cmd_trace::{ROOM, trace_to};
use path_model::{Law, MOST_LINES, Verb};
use path_read::read;
use path_shelf::{ActFault, Cell, Device, Tally};
use std::alloc::Global;
use std::process::Abort;
use tell_base::Status;

const BUFFER: &str = "resource buf queue 2 operation put0, put1, get0, get1 path put0 ; put1 end \
                      path get0 ; get1 end path put0 ; get0 end path put1 ; get1 end end";

const TOTAL: &str = "resource t tally operation a end";

const CELL: &str = "resource c cell operation a end";

// Checks that a trace over these devices in this room ends this way.
fn check_trace_over<D: Device>(
    rt: &impl Abort,
    heap: Global,
    devices: Vec<D>,
    room: u32,
    texts: (&str, &str),
    want: Ending<'_>,
) {
    let (declaration, attempts) = (texts.0.as_bytes(), texts.1.as_bytes());
    let decl = read(heap, declaration).expect(rt, "it is a declaration");
    let mut out = Vec::new(heap);
    let mut err = Vec::new(heap);
    let status = trace_to(
        heap, decl, devices, room, false, attempts, &mut out, &mut err,
    );
    check_ending(rt, texts.1, (status, &out, &err), want);
}

// This device alone.
fn alone<D: Device>(rt: &impl Abort, heap: Global, device: D) -> Vec<D> {
    let mut devices = Vec::new(heap);
    assert!(rt; devices.push(device).is_ok());
    devices
}

/// A cell that fails when it is first put or looked at.
#[derive(Drop)]
struct LateCell {
    cell: Cell,
    failures: u64,
}

impl Device for LateCell {
    ghost use Rattle.path_model.specs.declared.resource.Law.TheVariants as laws;

    ghost state = { λ d. record { law = laws.Cell; contents = (⟦<Cell as Device>⟧.state d.cell).contents; failures = d.failures } };

    fn law(&self) -> Law {
        Law::Cell
    }

    fn failures(&self) -> u64 {
        self.failures
    }

    fn at(&self, place: u32) -> Option<u64> {
        self.cell.at(place)
    }

    fn act(&mut self, verb: Verb) -> Result<u64, ActFault> {
        match verb {
            Verb::Put(_) | Verb::Look if self.failures == 0 => {
                self.failures = 1;
                Err(ActFault::Failed)
            }
            _ => self.cell.act(verb),
        }
    }
}

const OF_A_LATE_CELL: Ending<'static> = (
    Status::Done,
    "1 start a: started 0\n1 use 0 put 7: device failed\n1 use 0 look: used 5\n\
     1 use 0 put 7: used 5\n1 use 0 look: used 7\n",
    "",
);

#[test]
fn a_device_that_fails(rt: HostRuntime) {
    let device = LateCell {
        cell: Cell::new(5),
        failures: 0,
    };
    let devices = alone(&rt, rt.alloc(), device);
    let attempts = "1 start a\n1 use 0 put 7\n1 use 0 look\n1 use 0 put 7\n1 use 0 look";
    check_trace_over(
        &rt,
        rt.alloc(),
        devices,
        ROOM,
        (CELL, attempts),
        OF_A_LATE_CELL,
    );
}

const OF_A_FULL_TALLY: Ending<'static> = (
    Status::Done,
    "1 start a: started 0\n1 use 0 add 1: overflow\n\
     1 use 0 add 0: used 18446744073709551615\n1 use 0 put 5: not offered\n",
    "",
);

#[test]
fn devices_of_the_caller(rt: HostRuntime) {
    let devices = alone(&rt, rt.alloc(), Tally::new(u64::MAX));
    let attempts = "1 start a\n1 use 0 add 1\n1 use 0 add 0\n1 use 0 put 5";
    check_trace_over(
        &rt,
        rt.alloc(),
        devices,
        ROOM,
        (TOTAL, attempts),
        OF_A_FULL_TALLY,
    );
}

// A room, attempts, and how their trace over a tally ends if the declaration has a cell. A faulty text counts first.
const TALLY_FOR_A_CELL: &[(u32, &str, Ending<'static>)] = &[
    (
        ROOM,
        "1 start a",
        (Status::CommandRefused, "", "open: wrong device 0\n"),
    ),
    (
        ROOM,
        "1 start #0",
        (Status::TextRefused, "", "text: bad line 0\n"),
    ),
    (
        MOST_LINES + 1,
        "1 start a",
        (Status::CommandRefused, "", "open: bad room\n"),
    ),
];

fn check_tallies(rt: &impl Abort, heap: Global, rows: &[(u32, &str, Ending<'_>)]) {
    for (room, attempts, want) in rows {
        let devices = alone(rt, heap, Tally::new(0));
        check_trace_over(rt, heap, devices, *room, (CELL, attempts), *want);
    }
}

#[test]
fn devices_that_do_not_fit(rt: HostRuntime) {
    let none: Vec<Cell> = Vec::new(rt.alloc());
    let want = (Status::CommandRefused, "", "open: wrong count\n");
    check_trace_over(&rt, rt.alloc(), none, ROOM, (CELL, "1 start a"), want);
    check_tallies(&rt, rt.alloc(), TALLY_FOR_A_CELL);
}

const PUT_TRACED: Ending<'static> = (
    Status::Done,
    "1 start put0: started 0\n1 use 0 put 5: used 1\n",
    "",
);

#[test]
fn each_request_is_refused(rt: HostRuntime) {
    let texts = (BUFFER, "1 start put0\n1 use 0 put 5");
    refuse_each_request(&rt, rt.alloc(), texts, PUT_TRACED);
}
