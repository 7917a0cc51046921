//! Systems that go on behind a journal with little memory.

use crate::tests::resuming::going::{ROOM, SLOT, declared, lines_in};
use path_decl::Decl;
use path_lex::DeclFault;
use path_model::{Line, OutOfMemory};
use path_read::read;
use path_shelf::{Cell, Device};
use path_system::{OpenFault, ResumeFault, System};
use std::alloc::{Allocator, Global};
use std::process::Abort;
use test_support::count_refusals;

// The declaration of the slot.
fn slot<A: Allocator + Copy>(alloc: A) -> Result<Decl<A>, OutOfMemory> {
    match read(alloc, SLOT.0) {
        Ok(decl) => Ok(decl),
        Err(_) => Err(OutOfMemory),
    }
}

// Whether a system goes on behind these lines over a cell; the cell comes back if memory runs out.
fn goes_on<A: Allocator + Copy>(alloc: A, lines: &[Line]) -> Result<bool, OutOfMemory> {
    let mut devices = Vec::new(alloc);
    devices.push(Cell::new(0))?;
    let decl = slot(alloc)?;
    match System::resume(alloc, decl, devices, ROOM, lines) {
        Ok(system) => {
            let all = system.journal().len() == lines.len();
            drop(system);
            Ok(all)
        }
        Err((ResumeFault::Open(OpenFault::OutOfMemory), back)) => {
            let whole = back.len() == 1;
            drop(back);
            if whole { Err(OutOfMemory) } else { Ok(false) }
        }
        Err((_, back)) => {
            drop(back);
            Ok(false)
        }
    }
}

#[test]
fn each_allocation_refused(rt: HostRuntime) {
    let heap = rt.alloc();
    let decl = declared(&rt, heap, SLOT.0);
    let lines = lines_in(&rt, heap, &decl, SLOT.2);
    drop(decl);
    let refused = count_refusals(heap, OutOfMemory, |alloc| goes_on(alloc, &lines));
    assert!(rt; refused.is_ok());
    drop(lines);
}
