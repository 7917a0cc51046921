//! Two workers serve requests at one desk, each in a thread of its own. Then their receipts are settled against the journal.
#![tactic(auto)]

ghost use Rattle.std.specs.Prelude.{◌≡◌};

use anyhow::{Result, anyhow};
use path_model::{Attempt, OpId, Reply, Verb};
use path_read::read;
use path_shelf::{Device, Tally};
use path_system::System;
use path_workers::{Desk, DeskName, Pass, Steps};
use std::alloc::{Allocator, Global};
use std::marker::Brand;
use std::sync::Wait;
use std::sync::ledger::Blank;
use std::thread;
use std::thread::Threads;

/// A tally of the bytes served. Any number of requests may overlap.
const BYTES: &[u8] = b"resource bytes tally operation serve path { serve } end end";

/// Starts a request, adds ten bytes and finishes it, a hundred times. A start that isn't admitted is skipped.
fn serve<L: DeskName, S: Steps, R: Wait>(rt: &R, desk: &Desk<L, S>, mut pass: Pass<L>) -> Pass<L> {
    for _ in 0..100 {
        if let Ok(answer) = desk.attempt(rt, &mut pass, Attempt::Start(OpId(0))) {
            if let Reply::Started(request) = answer.reply {
                let _ = desk.attempt(rt, &mut pass, Attempt::Apply(request, Verb::Add(10)));
                let _ = desk.attempt(rt, &mut pass, Attempt::Finish(request));
            }
        }
    }
    pass
}

/// Lets two workers serve, and returns the system if each line is the receipt of one of them.
fn served_by_two<L: DeskName + Send + Sync, S: Steps + Send, R: Threads + Wait + Sync>(
    rt: &R,
    alloc: Global,
    system: S,
    blank: Blank,
) -> Result<S>
    requires name { blank.name ≡ L.name }
    requires parts { (blank.parts ≡ L.parts) × (blank.parts ≡ 18446744073709551615) }
    requires opened { S.account system ≡ L.opened }
{
    let desk = Desk::<L, S>::open(system, blank);
    let shared = &desk;
    let one = desk.pass(alloc, 1);
    let two = desk.pass(alloc, 2);
    let (one, two) = thread::join(
        rt,
        move || serve(rt, shared, one),
        move || serve(rt, shared, two),
    );
    let mut passes = Vec::new(alloc);
    passes.push(one)?;
    passes.push(two)?;
    match desk.settle(passes) {
        Ok(settled) => Ok(settled.system),
        Err((fault, _system)) => Err(anyhow!("{fault}")),
    }
}

/// A system over a tally that contains 0, with room for a thousand lines.
fn opened(alloc: Global) -> Result<System<Tally>> {
    let decl = read(alloc, BYTES)?;
    let mut devices = Vec::new(alloc);
    devices.push(Tally::new(0))?;
    match System::open(alloc, decl, devices, 1000) {
        Ok(system) => Ok(system),
        Err((fault, _devices)) => Err(anyhow!("{fault}")),
    }
}

/// The same at a new desk over this system.
fn served<D: Device + Send, A: Allocator + Copy + Send + Sync, R: Threads + Wait + Sync>(
    rt: &R,
    alloc: Global,
    system: System<D, A>,
) -> Result<System<D, A>> {
    served_by_two::<Brand, System<D, A>, R>(rt, alloc, system, Blank::new(u64::MAX))
}

fn main(rt: HostRuntime) -> Result<()> {
    let system = opened(rt.alloc())?;
    let system = served::<Tally, Global, HostRuntime>(&rt, rt.alloc(), system)?;
    let lines = system.journal().len();
    drop(system);
    println!(rt; "{lines} lines, each with one receipt")?;
    Ok(())
}
