//! The program's own devices.

ghost use Rattle.std.specs.Prelude.{◌≡◌, map, IfOk, IfErr};
ghost use Rattle.path_decl.specs.Text.{IsDeclarationText};
ghost use Rattle.path_shelf.specs.Openings.{opening_numbers};
ghost use Rattle.path_shelf.specs.Own.{own_state};
ghost use Rattle.tell_base.specs.Own.{own_openings, own_states};
ghost use Rattle.tell_base.specs.Refusals.{IsUndeclared};
ghost use Rattle.tell_base.specs.Statuses.{status_of};

use crate::fault::Fault;
use path_decl::{Decl, counts, law_of};
use path_model::{Law, OutOfMemory, ResId};
use path_read::read;
use path_shelf::OwnDevice;
use std::alloc::Allocator;

/// A device for each resource of the declaration, in order and of its law: a cell or a tally that contains 0, or an empty
/// queue. Fails only if allocation fails. The cost is the memory for all queues at their capacity.
pub fn own_devices<A: Allocator + Copy>(
    alloc: A,
    decl: &Decl<A>,
) -> Result<Vec<OwnDevice<A>, A>, OutOfMemory>
    ensures { IfOk result (λ devices. map own_state devices.items ≡ own_states decl.now.declaration) }
{
    let resources = counts(decl).resources;
    let mut devices = Vec::with_capacity(alloc, resources as usize)?;
    for number in 0..resources {
        let law = law_of(decl, ResId(number)).unwrap();
        devices.push(OwnDevice::new(alloc, law)?)?;
    }
    Ok(devices)
}

/// The declaration in a text, and the program's own devices for it: for each resource, in order, a cell or a tally that contains 0,
/// or an empty queue. Refuses what [`read`] refuses, as `Fault::Declaration`; any other fault is `OutOfMemory`. The cost is that of
/// [`read`], and the memory for all queues at their capacity.
pub fn read_own<A: Allocator + Copy>(
    alloc: A,
    text: &[u8],
) -> Result<(Decl<A>, Vec<OwnDevice<A>, A>), Fault<'static>>
    ensures declares { IfOk result (λ own. IsDeclarationText text.now own.0.declaration) }
    ensures devices { IfOk result (λ own. map own_state own.1.items ≡ own_states own.0.declaration) }
    ensures err { IfErr result (λ fault. IsUndeclared text.now (status_of fault)) }
{
    match read(alloc, text) {
        Ok(decl) => {
            let devices = own_devices(alloc, &decl)?;
            Ok((decl, devices))
        }
        Err(fault) => Err(Fault::Declaration(fault)),
    }
}

/// What a new device of this law contains. Fails only if allocation fails.
fn opening<A: Allocator + Copy>(alloc: A, law: Law) -> Result<Vec<u64, A>, OutOfMemory>
    ensures { IfOk result (λ numbers. numbers.items ≡ opening_numbers law) }
{
    let mut numbers = Vec::new(alloc);
    match law {
        Law::Cell | Law::Tally => numbers.push(0)?,
        Law::Queue(_) => {}
    }
    Ok(numbers)
}

/// What the device of each resource contains at first, in order: 0 in a cell or a tally, nothing in a queue. Fails only if
/// allocation fails. Takes time and memory in proportion to the number of resources.
pub fn own_openings<A: Allocator + Copy>(
    alloc: A,
    decl: &Decl<A>,
) -> Result<Vec<Vec<u64, A>, A>, OutOfMemory>
    ensures { IfOk result (λ openings. map (λ opening. opening.items) openings.items ≡ own_openings decl.now.declaration) }
{
    let resources = counts(decl).resources;
    let mut openings = Vec::with_capacity(alloc, resources as usize)?;
    for number in 0..resources {
        let law = law_of(decl, ResId(number)).unwrap();
        openings.push(opening(alloc, law)?)?;
    }
    Ok(openings)
}
