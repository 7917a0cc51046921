//! Whether the device of a resource may be replaced, and how the parts replace it.

ghost use Rattle.std.specs.Prelude.{◌≡◌, ◌↔◌, ◌<◌, true, false, Any, IsTrue, length, slice_index_or, slice_set, IfErr, OnErr, OnOk};
ghost use Rattle.path_model.specs.Declarations as declarations;
ghost use Rattle.path_system.specs.Inner.Parts.{AreDeclared, IsPartsFault, MayReplacePart, with_state};

use crate::fault::ReplaceFault;
use crate::parts::{Parts, resource_at};
use path_decl::Decl;
use path_ledger::Ledger;
use path_model::ResId;
use path_shelf::Device;
use std::alloc::Allocator;

impl<D: Device, A: Allocator + Copy> Parts<D, A> {
    /// Whether an activation of the resource is live.
    fn is_busy(&self, resource: ResId) -> bool
        requires { AreDeclared self.now }
        ensures { IsTrue result ↔ Any (λ a. declarations.resource_of self.now.declaration a.op.0 ≡ resource.0)
            self.now.present.register.live }
    {
        for activation in self.ledger.live() {
            if resource_at(&self.decl, activation.op) == resource {
                return true;
            }
        }
        false
    }

    /// Puts this device in place of the resource's own, which is dropped; all else stays. The resource must be declared. Fails
    /// with `Busy` if an activation of the resource is live, else with `Used` if its device has been asked, and else with
    /// `OtherLaw` if the new device has another law. The new device then comes back, and the parts are as they were.
    pub fn replace(&mut self, resource: ResId, device: D) -> Result<(), (ReplaceFault, D)>
        requires own { AreDeclared self.old }
        requires declared { resource.0 < length self.old.declaration.resources }
        ensures may { OnOk result (MayReplacePart self.old resource.0 (D.state device).law) }
        ensures replaced { OnOk result (self.new ≡ with_state self.old resource.0 (D.state device)) }
        ensures fault { IfErr result (λ refusal. IsPartsFault self.old resource.0 (D.state device).law refusal.0) }
        ensures back { IfErr result (λ refusal. refusal.1 ≡ device) }
        ensures kept { OnErr result (self.new ≡ self.old) }
    {
        if self.is_busy(resource) {
            return Err((ReplaceFault::Busy, device));
        }
        if self.devices.was_asked(resource) {
            return Err((ReplaceFault::Used, device));
        }
        match self.devices.replace(resource, device) {
            Ok(()) => Ok(()),
            Err(device) => Err((ReplaceFault::OtherLaw, device)),
        }
    }
}
