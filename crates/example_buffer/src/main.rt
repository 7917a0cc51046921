//! A buffer with four places, between a thread that puts numbers in and one that takes them out. Neither looks at the buffer: one path
//! says when there is a place, and when there is a number.
#![tactic(auto)]

ghost use Rattle.std.specs.Prelude.{◌≡◌, IfOk};
ghost use Rattle.path_system.specs.Accounts.{all_lines};
ghost use Rattle.example_buffer.specs.Buffer.{IsBuffer, KeepsOrder};

use anyhow::{Result, anyhow};
use path_decl::Decl;
use path_model::{Attempt, OpId, OutOfMemory, Reply, Verb};
use path_read::read_constant;
use path_shelf::{Device, Queue};
use path_system::{OpenFault, System};
use path_workers::{Desk, DeskName, Pass, Steps};
use std::alloc::{Allocator, Global};
use std::marker::Brand;
use std::sync::Wait;
use std::sync::ledger::Blank;
use std::thread;
use std::thread::Threads;

/// What is declared: each put is followed by a get, and at most four rounds of these are underway.
const TEXT: &[u8] = b"resource buffer queue 4 operation put, get path { put ; get : 4 } end end";

const PUT: OpId = OpId(0);

const GET: OpId = OpId(1);

/// The declaration of the buffer.
#[tactic(auto, unfolding(path_read::specs::Computed::declared_in))]
fn declared(alloc: Global) -> Result<Decl, OutOfMemory>
    ensures { IfOk result (λ d. IsBuffer d.declaration) }
{
    read_constant(alloc, TEXT)
}

/// Uses the buffer so a hundred times, under an operation of its own each time. Where there is no place or no number, it goes on.
fn hundred<L: DeskName, S: Steps, R: Wait>(
    rt: &R,
    desk: &Desk<L, S>,
    mut pass: Pass<L>,
    op: OpId,
    verb: Verb,
) -> Pass<L> {
    for _ in 0..100 {
        if let Ok(answer) = desk.attempt(rt, &mut pass, Attempt::Start(op)) {
            if let Reply::Started(act) = answer.reply {
                let _ = desk.attempt(rt, &mut pass, Attempt::Apply(act, verb));
                let _ = desk.attempt(rt, &mut pass, Attempt::Finish(act));
            }
        }
    }
    pass
}

/// Lets one thread put sevens in and another take them out, and returns the system if each line is the receipt of one of them. At each
/// moment of these lines every get that had begun followed a put, and at most four puts had no get yet.
fn shared_by_two<L: DeskName + Send + Sync, S: Steps + Send, R: Threads + Wait + Sync>(
    rt: &R,
    alloc: Global,
    system: S,
    blank: Blank,
) -> Result<S>
    requires name { blank.name ≡ L.name }
    requires parts { (blank.parts ≡ L.parts) × (blank.parts ≡ 18446744073709551615) }
    requires opened { S.account system ≡ L.opened }
    requires buffer { IsBuffer (S.account system).declaration }
    ensures { IfOk result (λ s. KeepsOrder (all_lines (S.account s))) }
{
    let desk = Desk::<L, S>::open(system, blank);
    let shared = &desk;
    let producer = desk.pass(alloc, 1);
    let consumer = desk.pass(alloc, 2);
    let (producer, consumer) = thread::join(
        rt,
        move || hundred(rt, shared, producer, PUT, Verb::Put(7)),
        move || hundred(rt, shared, consumer, GET, Verb::Take),
    );
    let mut passes = Vec::new(alloc);
    passes.push(producer)?;
    passes.push(consumer)?;
    match desk.settle(passes) {
        Ok(settled) => {
            if settled.system.journal().is_empty() {
                return Err(anyhow!("nothing was attempted"));
            }
            Ok(settled.system)
        }
        Err((fault, _system)) => Err(anyhow!("{fault}")),
    }
}

/// The same at a new desk over this system.
fn shared<D: Device + Send, A: Allocator + Copy + Send + Sync, R: Threads + Wait + Sync>(
    rt: &R,
    alloc: Global,
    system: System<D, A>,
) -> Result<System<D, A>>
    requires buffer { IsBuffer system.declaration }
    ensures { IfOk result (λ s. KeepsOrder (all_lines s)) }
{
    shared_by_two::<Brand, System<D, A>, R>(rt, alloc, system, Blank::new(u64::MAX))
}

/// A system over an empty queue of four places, with room for all lines.
fn opened(alloc: Global) -> Result<System<Queue>, OpenFault>
    ensures { IfOk result (λ s. IsBuffer s.declaration) }
{
    let queue = Queue::new(alloc, 4)?;
    let mut devices = Vec::new(alloc);
    if devices.push(queue).is_err() {
        return Err(OpenFault::OutOfMemory);
    }
    let decl = declared(alloc)?;
    match System::open(alloc, decl, devices, 1000) {
        Ok(system) => Ok(system),
        Err((fault, _devices)) => Err(fault),
    }
}

fn main(rt: HostRuntime) -> Result<()> {
    let system = match opened(rt.alloc()) {
        Ok(system) => system,
        Err(fault) => return Err(anyhow!("{fault}")),
    };
    drop(shared::<Queue, Global, HostRuntime>(&rt, rt.alloc(), system)?);
    println!(rt; "each line has one receipt, and no number was taken before it was put in")?;
    Ok(())
}
