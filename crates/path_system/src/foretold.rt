//! What devices would answer, unless they failed.

ghost use Rattle.std.specs.Prelude.{◌≡◌, ◌<◌, ◌≤◌, length, slice_index};
ghost use Rattle.path_model.specs.Devices.{outcome_of};
ghost use Rattle.path_model.specs.declared.resource.Law.TheVariants as laws;
ghost use Rattle.path_shelf.specs.States.{state_at};
ghost use Rattle.path_step.specs.Steps.{IsTold};

use path_model::{Law, Reply, ResId, Verb};
use path_shelf::{Device, Shelf};
use std::alloc::Allocator;

/// How many numbers the device of a declared resource contains, which are at most so many. The cost is a look at each.
fn count_of<D: Device, A: Allocator + Copy>(shelf: &Shelf<D, A>, resource: ResId, most: u32) -> u32
    requires declared { resource.0 < length shelf.now }
    requires few { length (state_at shelf.now resource.0).contents ≤ most }
    ensures { result ≡ length (state_at shelf.now resource.0).contents }
{
    for place in 0..most {
        if shelf.at(resource, place).is_none() {
            return place;
        }
    }
    most
}

/// The first number that the device contains; 0 if there is none.
fn first_of<D: Device, A: Allocator + Copy>(shelf: &Shelf<D, A>, resource: ResId) -> u64
    requires { resource.0 < length shelf.now }
    ensures { result ≡ slice_index (state_at shelf.now resource.0).contents 0 }
{
    shelf.at(resource, 0).unwrap_or(0)
}

/// What a cell would answer.
fn cell_told<D: Device, A: Allocator + Copy>(
    shelf: &Shelf<D, A>,
    resource: ResId,
    verb: Verb,
) -> Reply
    requires { resource.0 < length shelf.now }
    ensures { IsTold (outcome_of laws.Cell verb (state_at shelf.now resource.0).contents) result }
{
    match verb {
        Verb::Put(_) | Verb::Look => Reply::Used(first_of(shelf, resource)),
        Verb::Take | Verb::Add(_) => Reply::NotOffered,
    }
}

/// What a tally would answer.
fn tally_told<D: Device, A: Allocator + Copy>(
    shelf: &Shelf<D, A>,
    resource: ResId,
    verb: Verb,
) -> Reply
    requires { resource.0 < length shelf.now }
    ensures { IsTold (outcome_of laws.Tally verb (state_at shelf.now resource.0).contents) result }
{
    match verb {
        Verb::Look => Reply::Used(first_of(shelf, resource)),
        Verb::Add(number) => match first_of(shelf, resource).checked_add(number) {
            Some(total) => Reply::Used(total),
            None => Reply::Overflow,
        },
        Verb::Put(_) | Verb::Take => Reply::NotOffered,
    }
}

/// What a queue of this capacity would answer. For a put the cost is a look at each number in it.
fn queue_told<D: Device, A: Allocator + Copy>(
    shelf: &Shelf<D, A>,
    resource: ResId,
    capacity: u32,
    verb: Verb,
) -> Reply
    requires declared { resource.0 < length shelf.now }
    requires few { length (state_at shelf.now resource.0).contents ≤ capacity }
    ensures { IsTold (outcome_of (laws.Queue capacity) verb (state_at shelf.now resource.0).contents) result }
{
    match verb {
        Verb::Put(_) => {
            let count = count_of(shelf, resource, capacity);
            if count >= capacity {
                return Reply::Full;
            }
            Reply::Used(u64::from(count) + 1)
        }
        Verb::Take | Verb::Look => match shelf.at(resource, 0) {
            Some(number) => Reply::Used(number),
            None => Reply::Empty,
        },
        Verb::Add(_) => Reply::NotOffered,
    }
}

/// What the device of a declared resource would answer now unless it failed. Changes nothing. The cost is that of a look at one number,
/// or for a put into a queue at each.
pub fn foretold<D: Device, A: Allocator + Copy>(
    shelf: &Shelf<D, A>,
    resource: ResId,
    verb: Verb,
) -> Reply
    requires { resource.0 < length shelf.now }
    ensures { IsTold (outcome_of (state_at shelf.now resource.0).law verb (state_at shelf.now resource.0).contents) result }
{
    match shelf.law(resource) {
        Law::Cell => cell_told(shelf, resource, verb),
        Law::Tally => tally_told(shelf, resource, verb),
        Law::Queue(capacity) => queue_told(shelf, resource, capacity, verb),
    }
}
