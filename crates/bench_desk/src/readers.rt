//! Readers of a book at one desk, in threads of their own.

ghost use Rattle.std.specs.Prelude.{◌≡◌};

use anyhow::{Result, anyhow};
use path_model::{Attempt, MOST_LINES, OpId, Reply};
use path_read::read;
use path_shelf::{Cell, Device};
use path_system::System;
use path_workers::{Desk, DeskName, Pass, Steps};
use std::alloc::{AllocError, Allocator, Global};
use std::marker::Brand;
use std::sync::Wait;
use std::sync::ledger::{Blank, Ledger};
use std::thread::Threads;
use std::time::{Clock, Instant};
use std::{io, thread};

const BOOK: &[u8] = b"resource book cell operation read, write path { read } , write end end";

/// The number of receipts, and the nanoseconds that all attempts and the settling took.
#[derive(Clone, Copy)]
pub struct Times {
    pub receipts: u64,
    pub attempts: u64,
    pub settling: u64,
}

// Starts and finishes a read in each round.
fn read_rounds<L: DeskName, S: Steps, R: Wait>(
    rt: &R,
    desk: &Desk<L, S>,
    mut pass: Pass<L>,
    rounds: u32,
) -> Pass<L> {
    for _ in 0..rounds {
        if let Ok(answer) = desk.attempt(rt, &mut pass, Attempt::Start(OpId(0))) {
            if let Reply::Started(act) = answer.reply {
                let _ = desk.attempt(rt, &mut pass, Attempt::Finish(act));
            }
        }
    }
    pass
}

fn passes_of<L: DeskName, S: Steps>(
    alloc: Global,
    desk: &Desk<L, S>,
    threads: u32,
) -> Result<Vec<Pass<L>>, AllocError> {
    let mut passes = Vec::new(alloc);
    for worker in 0..threads {
        passes.push(desk.pass(alloc, worker))?;
    }
    Ok(passes)
}

// Reads with each pass in a thread of its own.
fn all_read<L: DeskName + Send + Sync, S: Steps + Send, R: Threads + Wait + Sync>(
    rt: &R,
    desk: &Desk<L, S>,
    passes: Vec<Pass<L>>,
    rounds: u32,
) -> Result<Vec<Pass<L>>, AllocError> {
    thread::map_vec(rt, passes, &|pass| read_rounds(rt, desk, pass, rounds))
}

fn nanos_since(rt: &impl Clock, start: Instant) -> io::Result<u64> {
    Ok(u64::try_from(start.elapsed(rt)?.as_nanos()).unwrap_or(u64::MAX))
}

fn measured<L: DeskName + Send + Sync, S: Steps + Send, R: Threads + Wait + Clock + Sync>(
    rt: &R,
    alloc: Global,
    system: S,
    blank: Blank,
    threads: u32,
    rounds: u32,
) -> Result<Times>
    requires name { blank.name ≡ L.name }
    requires parts { (blank.parts ≡ L.parts) × (blank.parts ≡ 18446744073709551615) }
    requires opened { S.account system ≡ L.opened }
{
    let desk = Desk::<L, S>::open(system, blank);
    let passes = passes_of(alloc, &desk, threads)?;
    let start = Instant::now(rt)?;
    let passes = all_read(rt, &desk, passes, rounds)?;
    let attempts = nanos_since(rt, start)?;
    let start = Instant::now(rt)?;
    let settled = desk.settle(passes);
    let settling = nanos_since(rt, start)?;
    match settled {
        Ok(settled) => Ok(Times {
            receipts: settled.system.journal().len() as u64,
            attempts,
            settling,
        }),
        Err((fault, _system)) => Err(anyhow!("not settled: {fault:?}")),
    }
}

fn book(alloc: Global) -> Result<System<Cell>> {
    let decl = read(alloc, BOOK)?;
    let mut devices = Vec::new(alloc);
    devices.push(Cell::new(0))?;
    match System::open(alloc, decl, devices, MOST_LINES) {
        Ok(system) => Ok(system),
        Err((fault, _devices)) => Err(fault.into()),
    }
}

// The same at a new desk over this system.
fn timed_at<D: Device + Send, A: Allocator + Copy + Send + Sync, R: Threads + Wait + Clock + Sync>(
    rt: &R,
    alloc: Global,
    system: System<D, A>,
    threads: u32,
    rounds: u32,
) -> Result<Times> {
    measured::<Brand, System<D, A>, R>(rt, alloc, system, Blank::new(u64::MAX), threads, rounds)
}

/// Measures `threads` threads that read in `rounds` rounds.
pub fn timed<R: Threads + Wait + Clock + Sync>(
    rt: &R,
    alloc: Global,
    threads: u32,
    rounds: u32,
) -> Result<Times> {
    timed_at::<Cell, Global, R>(rt, alloc, book(alloc)?, threads, rounds)
}
