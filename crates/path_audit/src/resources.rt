//! What resources contain, and how their laws change that.

ghost use Rattle.std.specs.Prelude.{◌≡◌, [], ◌∷◌, IfOk, OnOk, map, slice_index};
ghost use Rattle.path_model.specs.declared.resource.Law.TheVariants as laws;
ghost use Rattle.path_model.specs.Devices.{outcome_of, contents_left};
ghost use Rattle.path_audit.specs.Inner.Outcomes.{IsAnswer, Acts};

use path_model::{Law, OutOfMemory, Reply, ResId, Verb};
use path_step::Devices;
use std::alloc::Allocator;
use std::collections::VecDeque;
use std::marker::Model;

/// The numbers that a resource contains, in order.
type Contents<A> = VecDeque<u64, A>;

/// What each resource contains, and whether the device of the next use fails where its law would serve.
#[derive(Drop)]
pub struct Resources<A: Allocator + Copy> {
    contents: Vec<Contents<A>, A>,
    fails: bool,
}

impl<A: Allocator + Copy> Model for Resources<A> {
    ghost use Rattle.std.specs.Prelude.{map};
    ghost use Rattle.path_audit.specs.Inner.Replays.{Held};

    ghost Value = { Held };

    ghost view = { λ r. record { contents = map (λ held. held.items) r.contents.items; fails = r.fails } };
}

/// A copy of the contents that each opening lists. Fails only if allocation fails.
fn opened<A: Allocator + Copy>(
    alloc: A,
    openings: &[Vec<u64, A>],
) -> Result<Vec<Contents<A>, A>, OutOfMemory>
    ensures { IfOk result (λ contents. map (λ held. held.items) contents.items ≡ map (λ opening. opening.items) openings.now) }
{
    let mut contents = Vec::with_capacity(alloc, openings.len())?;
    for opening in openings {
        contents.push(VecDeque::from_vec(opening.clone()?))?;
    }
    Ok(contents)
}

/// The first number; 0 if there is none.
fn first<A: Allocator + Copy>(held: &Contents<A>) -> u64
    ensures { result ≡ slice_index held.now.items 0 }
{
    held.front().copied().unwrap_or(0)
}

/// A cell's answer.
fn cell_answer<A: Allocator + Copy>(verb: Verb, held: &Contents<A>) -> Result<u64, Reply>
    ensures { IsAnswer (outcome_of laws.Cell verb held.now.items) result }
{
    match verb {
        Verb::Put(_) | Verb::Look => Ok(first(held)),
        Verb::Take | Verb::Add(_) => Err(Reply::NotOffered),
    }
}

/// A tally's answer.
fn tally_answer<A: Allocator + Copy>(verb: Verb, held: &Contents<A>) -> Result<u64, Reply>
    ensures { IsAnswer (outcome_of laws.Tally verb held.now.items) result }
{
    match verb {
        Verb::Look => Ok(first(held)),
        Verb::Add(number) => first(held).checked_add(number).ok_or(Reply::Overflow),
        Verb::Put(_) | Verb::Take => Err(Reply::NotOffered),
    }
}

/// The answer of a queue of this capacity.
fn queue_answer<A: Allocator + Copy>(
    capacity: u32,
    verb: Verb,
    held: &Contents<A>,
) -> Result<u64, Reply>
    ensures { IsAnswer (outcome_of (laws.Queue capacity) verb held.now.items) result }
{
    match verb {
        Verb::Put(_) => {
            if held.len() >= capacity as usize {
                return Err(Reply::Full);
            }
            Ok(held.len() as u64 + 1)
        }
        Verb::Take | Verb::Look => held.front().copied().ok_or(Reply::Empty),
        Verb::Add(_) => Err(Reply::NotOffered),
    }
}

/// The number with which the law serves the verb, or its refusal.
fn answer<A: Allocator + Copy>(law: Law, verb: Verb, held: &Contents<A>) -> Result<u64, Reply>
    ensures { IsAnswer (outcome_of law verb held.now.items) result }
{
    match law {
        Law::Cell => cell_answer(verb, held),
        Law::Tally => tally_answer(verb, held),
        Law::Queue(capacity) => queue_answer(capacity, verb, held),
    }
}

/// Replaces all contents by this number.
fn put_alone<A: Allocator + Copy>(number: u64, held: &mut Contents<A>) -> Result<(), OutOfMemory>
    ensures { OnOk result (held.new.items ≡ number ∷ []) }
{
    held.clear();
    held.push_back(number)?;
    Ok(())
}

/// Changes the contents of a queue of this capacity.
fn change_queue<A: Allocator + Copy>(
    capacity: u32,
    verb: Verb,
    held: &mut Contents<A>,
) -> Result<(), OutOfMemory>
    ensures { OnOk result (held.new.items ≡ contents_left (outcome_of (laws.Queue capacity) verb held.old.items) held.old.items) }
{
    match verb {
        Verb::Put(number) => {
            if held.len() < capacity as usize {
                held.push_back(number)?;
            }
        }
        Verb::Take => {
            held.pop_front();
        }
        Verb::Look | Verb::Add(_) => {}
    }
    Ok(())
}

/// Changes the contents as the law says. A refused verb changes nothing.
fn change<A: Allocator + Copy>(
    law: Law,
    verb: Verb,
    held: &mut Contents<A>,
) -> Result<(), OutOfMemory>
    ensures { OnOk result (held.new.items ≡ contents_left (outcome_of law verb held.old.items) held.old.items) }
{
    match (law, verb) {
        (Law::Cell, Verb::Put(number)) => put_alone(number, held),
        (Law::Tally, Verb::Add(number)) => match first(held).checked_add(number) {
            Some(total) => put_alone(total, held),
            None => Ok(()),
        },
        (Law::Queue(capacity), _) => change_queue(capacity, verb, held),
        _ => Ok(()),
    }
}

/// The reply of a resource of this law to a verb; changes its contents. If `fails` is set and the law would serve, the reply is
/// `DeviceFailed` and the contents stay. Fails only if allocation fails.
fn act_on<A: Allocator + Copy>(
    law: Law,
    verb: Verb,
    fails: bool,
    held: &mut Contents<A>,
) -> Result<Reply, OutOfMemory>
    ensures { IfOk result (λ reply. Acts (outcome_of law verb held.old.items) fails reply held.old.items held.new.items) }
{
    match answer(law, verb, held) {
        Err(refusal) => Ok(refusal),
        Ok(_) if fails => Ok(Reply::DeviceFailed),
        Ok(number) => {
            change(law, verb, held)?;
            Ok(Reply::Used(number))
        }
    }
}

impl<A: Allocator + Copy> Resources<A> {
    /// Resources that contain what the openings list. Fails only if allocation fails.
    pub fn open(alloc: A, openings: &[Vec<u64, A>]) -> Result<Resources<A>, OutOfMemory>
        ensures { IfOk result (λ resources. resources.contents ≡ map (λ opening. opening.items) openings.now) }
    {
        let contents = opened(alloc, openings)?;
        Ok(Resources {
            contents,
            fails: false,
        })
    }

    /// The device of the next use fails where its law would serve, or it doesn't.
    pub fn set_fails(&mut self, fails: bool)
        ensures { self.new ≡ record self.old { fails = fails } }
    {
        self.fails = fails;
    }
}

impl<A: Allocator + Copy> Devices for Resources<A> {
    ghost use Rattle.path_audit.specs.Inner.Replays.{asked};

    ghost contents = { λ r. r.contents };

    ghost has_law = { λ r i law. Unit {0} };

    ghost asked = { λ old i verb reply new. asked old i verb reply new };

    type Fault = OutOfMemory;

    /// Fails only if allocation fails.
    fn act(&mut self, law: Law, resource: ResId, verb: Verb) -> Result<Reply, OutOfMemory> {
        act_on(
            law,
            verb,
            self.fails,
            &mut self.contents[resource.0 as usize],
        )
    }

    /// Takes constant time.
    fn foretell(&self, law: Law, resource: ResId, verb: Verb) -> Reply {
        match answer(law, verb, &self.contents[resource.0 as usize]) {
            Ok(number) => Reply::Used(number),
            Err(refusal) => refusal,
        }
    }
}
