//! Rounds of a deposit and a removal, by attempts and by calls.

use anyhow::Result;
use path_model::{Attempt, Line, OpId, Reply};
use path_read::read;
use path_shelf::Cell;
use path_system::System;
use std::alloc::Global;
use std::io;
use std::time::{Clock, Instant};

const SLOT: &[u8] = b"resource slot cell operation deposit, remove path deposit ; remove end end";

const ROOM: u32 = 4_096;

/// How many starts and finishes were admitted, and the nanoseconds that they took by attempts, and by calls.
#[derive(Clone, Copy)]
pub struct Times {
    pub admitted: u64,
    pub steps: u64,
    pub calls: u64,
}

// A start and a finish, as attempts; how many were admitted.
fn by_steps(system: &mut System<Cell>, op: OpId) -> u64 {
    match system.step(1, Attempt::Start(op)) {
        Reply::Started(act) => match system.step(1, Attempt::Finish(act)) {
            Reply::Finished => 2,
            _ => 1,
        },
        _ => 0,
    }
}

// The same by calls.
fn by_calls(system: &mut System<Cell>, op: OpId) -> u64 {
    match system.start(1, op) {
        Ok(act) => match system.finish(1, act) {
            Ok(()) => 2,
            Err(_) => 1,
        },
        Err(_) => 0,
    }
}

// Rotates a system whose journal lacks room for a round.
fn refreshed(system: &mut System<Cell>, spare: Vec<Line>) -> Vec<Line> {
    if system.controller().room_left() >= 4 {
        return spare;
    }
    match system.rotate(spare) {
        Ok(lines) => lines,
        Err(places) => places,
    }
}

// Rounds by attempts; how many were admitted.
fn rounds_by_steps(system: &mut System<Cell>, spare: Vec<Line>, rounds: u32) -> (u64, Vec<Line>) {
    let mut admitted: u64 = 0;
    let mut spare = spare;
    for _ in 0..rounds {
        spare = refreshed(system, spare);
        admitted = admitted.saturating_add(by_steps(system, OpId(0)));
        admitted = admitted.saturating_add(by_steps(system, OpId(1)));
    }
    (admitted, spare)
}

// Rounds by calls; how many were admitted.
fn rounds_by_calls(system: &mut System<Cell>, spare: Vec<Line>, rounds: u32) -> (u64, Vec<Line>) {
    let mut admitted: u64 = 0;
    let mut spare = spare;
    for _ in 0..rounds {
        spare = refreshed(system, spare);
        admitted = admitted.saturating_add(by_calls(system, OpId(0)));
        admitted = admitted.saturating_add(by_calls(system, OpId(1)));
    }
    (admitted, spare)
}

fn slot(alloc: Global) -> Result<System<Cell>> {
    let decl = read(alloc, SLOT)?;
    let mut devices = Vec::new(alloc);
    devices.push(Cell::new(0))?;
    match System::open(alloc, decl, devices, ROOM) {
        Ok(system) => Ok(system),
        Err((fault, _devices)) => Err(fault.into()),
    }
}

fn nanos_since(rt: &impl Clock, start: Instant) -> io::Result<u64> {
    Ok(u64::try_from(start.elapsed(rt)?.as_nanos()).unwrap_or(u64::MAX))
}

// Measures rounds by attempts, and then by calls.
fn measured<R: Clock>(
    rt: &R,
    alloc: Global,
    system: &mut System<Cell>,
    rounds: u32,
) -> Result<Times> {
    let spare = Vec::with_capacity(alloc, ROOM as usize)?;
    let start = Instant::now(rt)?;
    let (stepped, spare) = rounds_by_steps(system, spare, rounds);
    let steps = nanos_since(rt, start)?;
    let start = Instant::now(rt)?;
    let (called, _spare) = rounds_by_calls(system, spare, rounds);
    let calls = nanos_since(rt, start)?;
    let admitted = stepped.saturating_add(called);
    Ok(Times {
        admitted,
        steps,
        calls,
    })
}

/// Measures these rounds by attempts, and then by calls, on one system of a slot that rotates whenever its room is full.
pub fn timed<R: Clock>(rt: &R, alloc: Global, rounds: u32) -> Result<Times> {
    let mut system = slot(alloc)?;
    measured(rt, alloc, &mut system, rounds)
}
