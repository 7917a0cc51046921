//! What tests hand in, and how a run ends.

use cmd_run::{run_bytes, run_to};
use path_read::read;
use path_shelf::Device;
use std::alloc::{Allocator, Global};
use std::io::Write;
use std::process::Abort;
use std::sync::Wait;
use std::thread::Threads;
use tell_base::Status;

/// One resource, in which every deposit is followed by a remove.
pub(crate) const SLOT: &str =
    "resource slot cell operation deposit, remove path deposit ; remove end end";

/// A declaration, a room and a script.
#[derive(Clone, Copy)]
pub(crate) struct Case<'a> {
    pub(crate) declaration: &'a str,
    pub(crate) room: u32,
    pub(crate) script: &'a str,
}

/// The script over the slot, in a room of 100 lines.
pub(crate) fn over_slot(script: &str) -> Case<'_> {
    Case {
        declaration: SLOT,
        room: 100,
        script,
    }
}

/// A status, what was written, and what was said on standard error.
pub(crate) type Ending<'a> = (Status, &'a str, &'a str);

/// Runs the case, and returns what `run_bytes` answers.
pub(crate) fn run_case<A: Allocator + Copy + Send + Sync, R: Threads + Wait + Sync>(
    rt: &R,
    alloc: A,
    case: Case<'_>,
    out: &mut impl Write,
    err: &mut impl Write,
) -> Status {
    let declaration = case.declaration.as_bytes();
    let script = case.script.as_bytes();
    run_bytes(rt, alloc, declaration, case.room, script, out, err)
}

/// Checks that the run of the case ends so.
pub(crate) fn check_ending<R: Threads + Wait + Abort + Sync>(
    rt: &R,
    alloc: Global,
    case: Case<'_>,
    want: Ending<'_>,
) {
    let mut out = Vec::new(alloc);
    let mut err = Vec::new(alloc);
    let status = run_case(rt, alloc, case, &mut out, &mut err);
    let ended = (status, out.as_slice(), err.as_slice());
    let want = (want.0, want.1.as_bytes(), want.2.as_bytes());
    assert_eq!(rt; ended, want, "of {:?}", case.script);
}

/// Checks that a run over this device ends so. The declaration has one resource.
pub(crate) fn check_ending_over<D: Device + Send, R: Threads + Wait + Abort + Sync>(
    rt: &R,
    alloc: Global,
    case: Case<'_>,
    device: D,
    want: Ending<'_>,
) {
    let decl = match read(alloc, case.declaration.as_bytes()) {
        Ok(decl) => decl,
        Err(_) => panic!(rt; "no declaration"),
    };
    let mut devices = Vec::new(alloc);
    assert!(rt; devices.push(device).is_ok());
    let mut out = Vec::new(alloc);
    let mut err = Vec::new(alloc);
    let script = case.script.as_bytes();
    let status = run_to::<D, Global, R, Vec<u8>, Vec<u8>>(
        rt, alloc, decl, devices, case.room, script, &mut out, &mut err,
    );
    let ended = (status, out.as_slice(), err.as_slice());
    let want = (want.0, want.1.as_bytes(), want.2.as_bytes());
    assert_eq!(rt; ended, want, "of {:?}", case.script);
}
