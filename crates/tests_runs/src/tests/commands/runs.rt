//! Runs of one process or of none, whose journals are always the same.

use crate::tests::commands::own::{Case, Ending, check_ending, check_ending_over, over_slot};
use path_shelf::{Cell, Tally};
use std::alloc::Global;
use std::process::Abort;
use std::sync::Wait;
use std::thread::Threads;
use tell_base::Status;

/// A case, and how its run ends.
type Row = (Case<'static>, Ending<'static>);

const BAG: &str = "resource bag queue 1 operation fill, take path fill , take end end";

/// Each end of a process, as it is written, and the status of the run.
const RUNS: &[Row] = &[
    (
        Case {
            declaration: "resource slot cell operation deposit, remove path deposit ; remove end end",
            room: 100,
            script: "process solo\nenter deposit\nuse put 7\nleave\nenter remove\nuse look\nleave\nend\n",
        },
        (
            Status::Done,
            "journal 2 room 100\n0 start deposit: started 0\n0 use 0 put 7: used 0\n0 finish 0: finished\n\
             0 start remove: started 1\n0 use 1 look: used 7\n0 finish 1: finished\n",
            "solo: done\n",
        ),
    ),
    (
        Case {
            declaration: "resource slot cell operation deposit, remove path deposit ; remove end end",
            room: 100,
            script: "",
        },
        (Status::Done, "journal 2 room 100\n", ""),
    ),
    (
        Case {
            declaration: "resource slot cell operation deposit, remove path deposit ; remove end end",
            room: 100,
            script: "process waits\nenter remove\nleave\nend",
        },
        (
            Status::Unsound,
            "journal 2 room 100\n0 start remove: blocked 0\n",
            "waits: stalled remove\n",
        ),
    ),
    (
        Case {
            declaration: "resource slot cell operation deposit, remove path deposit ; remove end end",
            room: 2,
            script: "process long\nenter deposit\nuse look\nleave\nend\n",
        },
        (
            Status::Unsound,
            "journal 2 room 2\n0 start deposit: started 0\n0 finish 0: finished\n",
            "long: no room\n",
        ),
    ),
    (
        Case {
            declaration: BAG,
            room: 9,
            script: "process thief\nenter take\nuse take\nleave\nend\n",
        },
        (
            Status::Unsound,
            "journal 2 room 9\n0 start take: started 0\n0 use 0 take: empty\n0 finish 0: finished\n",
            "thief: faulted empty\n",
        ),
    ),
];

fn all_end_so<R: Threads + Wait + Abort + Sync>(rt: &R, alloc: Global, rows: &[Row]) {
    for (case, want) in rows {
        check_ending(rt, alloc, *case, *want);
    }
}

#[test]
fn runs(rt: HostRuntime) {
    all_end_so(&rt, rt.alloc(), RUNS);
}

/// The journal begins with what the caller's own device contained.
#[test]
fn own_device(rt: HostRuntime) {
    let script = "process reader\nenter deposit\nuse look\nleave\nend\n";
    let want = (
        Status::Done,
        "journal 2 room 100\n0 start deposit: started 0\n0 use 0 look: used 5\n0 finish 0: finished\n",
        "reader: done\n",
    );
    check_ending_over::<Cell, HostRuntime>(&rt, rt.alloc(), over_slot(script), Cell::new(5), want);
}

/// A tally isn't the cell that is declared.
#[test]
fn other_device(rt: HostRuntime) {
    let want = (Status::CommandRefused, "", "open: wrong device 0\n");
    check_ending_over::<Tally, HostRuntime>(&rt, rt.alloc(), over_slot(""), Tally::new(0), want);
}
