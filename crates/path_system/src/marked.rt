//! The devices of a system, and which of them have been asked.

ghost use Rattle.std.specs.Prelude.{◌≡◌, ◌↔◌, ◌<◌, true, false, IsTrue, IsFalse, length, map, slice_index_or, slice_set};
ghost use Rattle.std.specs.Prelude.{IsOk, IfErr, OnErr, OnOk};
ghost use Rattle.path_model.specs.declared.journal.Reply.TheVariants as replies;
ghost use Rattle.path_shelf.specs.States.{MayFail, state_at};
ghost use Rattle.path_system.specs.Inner.Parts.{HasAnswered, HasFailedStill, HasServed, as_reply, contents, is_law_at};

use crate::foretold::foretold;
use path_model::{Law, Reply, ResId, Verb};
use path_shelf::{ActFault, Device, Shelf};
use path_step::Devices;
use std::alloc::{Allocator, Global};
use std::convert::Infallible;
use std::marker::Model;

/// A shelf of devices, and for each whether it has been asked.
#[derive(Drop)]
pub struct MarkedShelf<D: Device, A: Allocator + Copy = Global> {
    shelf: Shelf<D, A>,
    asked: Vec<bool, A>,
}

impl<D: Device, A: Allocator + Copy> Model for MarkedShelf<D, A> {
    ghost use Rattle.std.specs.Prelude.{◌≡◌, length};
    ghost use Rattle.path_system.specs.Inner.Parts.{Marked};

    ghost Value = { Marked };

    ghost view = { λ m. record { states = m.shelf; asked = m.asked.items } };

    ghost invariant = { λ m. length m.asked.items ≡ length m.shelf };
}

/// The reply for a device's answer.
fn reply_of(answer: Result<u64, ActFault>) -> Reply
    ensures { result ≡ as_reply answer }
{
    match answer {
        Ok(number) => Reply::Used(number),
        Err(ActFault::NotOffered) => Reply::NotOffered,
        Err(ActFault::Empty) => Reply::Empty,
        Err(ActFault::Full) => Reply::Full,
        Err(ActFault::Overflow) => Reply::Overflow,
        Err(ActFault::Failed) => Reply::DeviceFailed,
    }
}

/// Whether the reply says that the device failed.
fn says_failed(reply: Reply) -> bool
    ensures { IsTrue result ↔ (reply ≡ replies.DeviceFailed) }
{
    matches!(reply, Reply::DeviceFailed)
}

impl<D: Device, A: Allocator + Copy> MarkedShelf<D, A> {
    /// These devices with these marks, one for each.
    pub fn new(shelf: Shelf<D, A>, asked: Vec<bool, A>) -> MarkedShelf<D, A>
        requires { length asked.items ≡ length shelf }
        ensures { result ≡ record { states = shelf; asked = asked.items } }
    {
        MarkedShelf { shelf, asked }
    }

    /// The devices.
    pub fn shelf(&self) -> &Shelf<D, A>
        ensures { result.now ≡ self.now.states }
    {
        &self.shelf
    }

    /// The devices, without their marks. Takes constant time.
    pub fn into_devices(self) -> Vec<D, A>
        ensures { map D.state result.items ≡ self.states }
    {
        let MarkedShelf { shelf, asked } = self;
        drop(asked);
        shelf.into_devices()
    }

    /// Marks the device of a declared resource as asked, and doesn't ask it.
    pub fn mark(&mut self, resource: ResId)
        requires { resource.0 < length self.old.states }
        ensures { self.new ≡ record self.old { asked = slice_set self.old.asked resource.0 true } }
    {
        self.asked[resource.0 as usize] = true;
    }

    /// Lets the device of a declared resource serve the verb, and marks it, unless it fails: then nothing changes but what it counts.
    /// Whether it didn't fail. The cost is that of the device's own call.
    pub fn serve(&mut self, resource: ResId, verb: Verb) -> bool
        requires { resource.0 < length self.old.states }
        ensures served { IsTrue result → HasServed (MayFail D.state) self.old resource.0 verb self.new }
        ensures failed { IsFalse result → HasFailedStill (MayFail D.state) self.old resource.0 self.new }
    {
        let reply = reply_of(self.shelf.act(resource, verb));
        if says_failed(reply) {
            return false;
        }
        self.asked[resource.0 as usize] = true;
        true
    }

    /// Whether the device of a declared resource has been asked.
    pub fn was_asked(&self, resource: ResId) -> bool
        requires { resource.0 < length self.now.states }
        ensures { result ≡ slice_index_or self.now.asked resource.0 false }
    {
        self.asked[resource.0 as usize]
    }

    /// Puts this device in place of a declared resource's own, which is dropped. The other devices and all marks stay. A device of
    /// another law comes back, and nothing changes.
    pub fn replace(&mut self, resource: ResId, device: D) -> Result<(), D>
        requires { resource.0 < length self.old.states }
        ensures same_law { IsOk result ↔ ((D.state device).law ≡ (state_at self.old.states resource.0).law) }
        ensures replaced { OnOk result (self.new ≡ record self.old { states = slice_set self.old.states resource.0 (D.state device) }) }
        ensures back { IfErr result (λ refused. refused ≡ device) }
        ensures kept { OnErr result (self.new ≡ self.old) }
    {
        self.shelf.replace(resource, device)
    }
}

impl<D: Device, A: Allocator + Copy> Devices for MarkedShelf<D, A> {
    ghost use Rattle.path_shelf.specs.States.{MayFail};
    ghost use Rattle.path_system.specs.Inner.Parts.{HasAnswered};
    ghost use Rattle.path_system.specs.Inner.Parts as parts;

    ghost contents = { λ m. parts.contents m };

    ghost has_law = { λ m r law. parts.is_law_at m r law };

    ghost asked = { λ old r verb reply new. HasAnswered (MayFail D.state) old r verb reply new };

    type Fault = Infallible;

    /// Never fails. The cost is that of the device's own call.
    fn act(&mut self, _law: Law, resource: ResId, verb: Verb) -> Result<Reply, Infallible> {
        self.asked[resource.0 as usize] = true;
        Ok(reply_of(self.shelf.act(resource, verb)))
    }

    /// The cost is that of a look at one number, or for a put into a queue at each.
    fn foretell(&self, _law: Law, resource: ResId, verb: Verb) -> Reply {
        foretold(&self.shelf, resource, verb)
    }
}
