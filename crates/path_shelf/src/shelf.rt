//! One device for each resource of a declaration.

ghost use Rattle.std.specs.Prelude.{◌≡◌, ◌<◌, ◌↔◌, length, map, slice_get, slice_set};
ghost use Rattle.std.specs.Prelude.{IsOk, IsTrue, IsErrOf, IfOk, IfErr, OnOk, OnErr, MatchOption};
ghost use Rattle.path_model.specs.Declarations as declarations;
ghost use Rattle.path_model.specs.Devices.{Fits};
ghost use Rattle.path_shelf.specs.States.{ActsAt, MayFail, state_at, laws_of};
ghost use Rattle.path_shelf.specs.Shelves.{IsShelfFault, declared_laws};

use crate::device::{ActFault, Device};
use path_decl::{Decl, counts, law_of};
use path_model::{Law, ResId, Verb};
use std::alloc::{Allocator, Global};
use std::marker::Model;

/// Why devices make no shelf.
#[derive(Clone, Copy, Debug, PartialEq, Eq)]
pub enum ShelfFault {
    /// The number of devices isn't the number of resources.
    WrongCount,
    /// This resource is the first whose device has another law.
    WrongDevice(ResId),
}

/// The devices of a declaration's resources, in order. Contracts see their states. No call allocates. Dropping a shelf drops each
/// device.
#[derive(Drop)]
pub struct Shelf<D: Device, A: Allocator + Copy = Global> {
    devices: Vec<D, A>,
}

impl<D: Device, A: Allocator + Copy> Model for Shelf<D, A> {
    ghost use Rattle.std.specs.Prelude.{List, map};
    ghost use Rattle.path_shelf.specs.States.{State};

    ghost Value = { List State };

    ghost view = { λ s. map D.state s.devices.items };
}

impl<D: Device, A: Allocator + Copy> Shelf<D, A> {
    /// Opens a shelf of these devices, one for each resource of the declaration and of its law; the capacity of a queue is part of its
    /// law.
    ///
    /// Fails with `WrongCount` if there isn't one device for each resource, and else with `WrongDevice` if one has another law. The
    /// devices then come back in their order. The cost is one look at each.
    pub fn open(devices: Vec<D, A>, decl: &Decl<A>) -> Result<Shelf<D, A>, (ShelfFault, Vec<D, A>)>
        ensures ok { IfOk result (λ shelf. shelf ≡ map D.state devices.items) }
        ensures laws { OnOk result (laws_of (map D.state devices.items) ≡ declared_laws decl.now.declaration) }
        ensures fault { IfErr result (λ refusal. IsShelfFault (map D.state devices.items) decl.now.declaration refusal.0) }
        ensures back { IfErr result (λ refusal. refusal.1.items ≡ devices.items) }
    {
        match shelf_fault(&devices, decl) {
            Some(fault) => Err((fault, devices)),
            None => Ok(Shelf::over(devices)),
        }
    }

    /// A shelf of these devices, of which nothing is tested: whether they serve a declaration, [`shelf_fault`] tells.
    pub fn over(devices: Vec<D, A>) -> Shelf<D, A>
        ensures { result ≡ map D.state devices.items }
    {
        Shelf { devices }
    }

    /// The devices, in their order. Takes constant time.
    pub fn into_devices(self) -> Vec<D, A>
        ensures { map D.state result.items ≡ self }
    {
        let Shelf { devices } = self;
        devices
    }

    /// Lets the device of a declared resource serve the verb, as its law says. The other devices don't change. The cost is that of the
    /// device's own call.
    pub fn act(&mut self, resource: ResId, verb: Verb) -> Result<u64, ActFault>
        requires { resource.0 < length self.old }
        ensures acts { ActsAt self.old resource.0 verb result self.new }
        // It is `Failed` only if devices of this type may fail.
        ensures failed { IsErrOf result ActFault.Failed → MayFail D.state }
    {
        self.devices[resource.0 as usize].act(verb)
    }

    /// The number at a place of what a declared resource contains; `None` past the end. The cost is that of the device's own call.
    pub fn at(&self, resource: ResId, place: u32) -> Option<u64>
        requires { resource.0 < length self.now }
        ensures { result ≡ slice_get (state_at self.now resource.0).contents place }
    {
        self.devices[resource.0 as usize].at(place)
    }

    /// The law of a declared resource. The cost is that of the device's own call.
    pub fn law(&self, resource: ResId) -> Law
        requires { resource.0 < length self.now }
        ensures law { result ≡ (state_at self.now resource.0).law }
        ensures fits { Fits (state_at self.now resource.0).law (state_at self.now resource.0).contents }
    {
        self.devices[resource.0 as usize].law()
    }

    /// How often the device of a declared resource has failed. The cost is that of the device's own call.
    pub fn failures(&self, resource: ResId) -> u64
        requires { resource.0 < length self.now }
        ensures { result ≡ (state_at self.now resource.0).failures }
    {
        self.devices[resource.0 as usize].failures()
    }

    /// Puts this device in place of a declared resource's own, which is dropped. The other devices don't change.
    ///
    /// A device of another law comes back, and all devices stay as they were. The cost is that of asking both devices for their laws,
    /// and of the drop.
    pub fn replace(&mut self, resource: ResId, device: D) -> Result<(), D>
        requires { resource.0 < length self.old }
        ensures same_law { IsOk result ↔ ((D.state device).law ≡ (state_at self.old resource.0).law) }
        ensures replaced { OnOk result (self.new ≡ slice_set self.old resource.0 (D.state device)) }
        ensures back { IfErr result (λ refused. refused ≡ device) }
        ensures kept { OnErr result (self.new ≡ self.old) }
    {
        let held = &mut self.devices[resource.0 as usize];
        if held.law() != device.law() {
            return Err(device);
        }
        *held = device;
        Ok(())
    }
}

/// Whether the device has the law of the resource.
fn has_its_law<D: Device, A: Allocator + Copy>(device: &D, decl: &Decl<A>, resource: ResId) -> bool
    requires { resource.0 < length decl.now.declaration.resources }
    ensures { IsTrue result ↔ ((D.state device.now).law ≡ declarations.law_of decl.now.declaration resource.0) }
{
    law_of(decl, resource) == Some(device.law())
}

/// Why [`Shelf::open`] would refuse these devices; `None` if it wouldn't. The cost is one look at each.
pub fn shelf_fault<D: Device, A: Allocator + Copy>(
    devices: &[D],
    decl: &Decl<A>,
) -> Option<ShelfFault>
    ensures { MatchOption result (laws_of (map D.state devices.now) ≡ declared_laws decl.now.declaration)
        (IsShelfFault (map D.state devices.now) decl.now.declaration) }
{
    if devices.len() != counts(decl).resources as usize {
        return Some(ShelfFault::WrongCount);
    }
    for (i, device) in devices.iter().enumerate() {
        let resource = ResId(i as u32);
        if !has_its_law(device, decl, resource) {
            return Some(ShelfFault::WrongDevice(resource));
        }
    }
    None
}
