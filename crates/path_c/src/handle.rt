//! The handle that C holds.

ghost use Rattle.std.specs.Prelude.{◌≡◌, true, false, Bool, MatchOption};
ghost use Rattle.path_service.specs.Serving.{Serving};
ghost use Rattle.path_c.specs.Held.{held_owns, service_coded};

use crate::parts::Parts;
use path_service::Service;
use std::alloc::Global;
use std::marker::Model;
use std::mem;
use std::ptr::null_mut;

/// A boxed service behind a pointer whose type tells nothing of it, or nothing at all.
#[repr(C)]
#[derive(Drop)]
pub struct Held {
    at: *mut u8,
    alloc: Global,
    /// Whether a service is there.
    pub ghost full: { Bool },
    /// What contracts see of it.
    pub ghost service: { Serving } by { service_coded },
}

impl Model for Held {
    ghost also_owns = { λ h. held_owns h.full h.alloc h.at h.service };
}

impl Held {
    fn nothing(alloc: Global) -> Held
        ensures { result.full ≡ false }
    {
        Held {
            at: null_mut(),
            alloc,
        }
    }

    fn of_parts(parts: Parts<Service, Global>) -> Held
        ensures { (result.full ≡ true) × (result.service ≡ parts.value) }
    {
        let Parts { ptr, alloc } = parts;
        Held {
            at: ptr as *mut u8,
            alloc,
        }
    }

    fn into_parts(self) -> Parts<Service, Global>
        requires { self.full ≡ true }
        ensures { result.value ≡ self.service }
    {
        let Held { at, alloc } = self;
        Parts {
            ptr: at as *mut Service,
            alloc,
        }
    }
}

unsafe impl Send for Held {}

/// What C holds: zeroed before it is opened, and never looked into.
#[repr(C)]
pub struct Handle {
    held: Held,
    live: bool,
    ghost same: { live ≡ held.full },
}

impl Drop for Handle {
    fn drop(self) {
        drop(self.into_service());
    }
}

impl Handle {
    /// A handle with no service.
    pub(crate) fn closed(alloc: Global) -> Handle
        ensures { result.live ≡ false }
    {
        Handle {
            held: Held::nothing(alloc),
            live: false,
        }
    }

    /// A handle of this service.
    pub(crate) fn of(service: Box<Service, Global>) -> Handle
        ensures live { result.live ≡ true }
        ensures service { result.held.service ≡ service.value }
    {
        Handle {
            held: Held::of_parts(Parts::of(service)),
            live: true,
        }
    }

    /// Whether there is a service.
    pub(crate) fn is_live(&self) -> bool
        ensures { result ≡ self.now.live }
    {
        self.live
    }

    /// The service, if there is one.
    pub(crate) fn into_service(self) -> Option<Box<Service, Global>>
        ensures { MatchOption result (self.live ≡ false) (λ b. (self.live ≡ true) × (b.value ≡ self.held.service)) }
    {
        let Handle { held, live } = self;
        if live {
            Some(held.into_parts().into_box())
        } else {
            None
        }
    }

    /// The service of an open handle.
    fn into_open(self) -> Box<Service, Global>
        requires { self.live ≡ true }
        ensures { result.value ≡ self.held.service }
    {
        let Handle { held, live: _ } = self;
        held.into_parts().into_box()
    }

    /// Takes the service out, if there is one: the handle is closed then.
    pub(crate) fn take(&mut self, alloc: Global) -> Option<Box<Service, Global>>
        ensures result { MatchOption result (self.old.live ≡ false) (λ b. (self.old.live ≡ true) × (b.value ≡ self.old.held.service)) }
        ensures closed { self.new.live ≡ false }
    {
        if !self.live {
            return None;
        }
        Some(mem::replace(self, Handle::closed(alloc)).into_open())
    }

    /// Puts a service into a closed handle. There is nothing in the old one that would have to be dropped.
    pub(crate) fn put(&mut self, service: Box<Service, Global>)
        requires { self.old.live ≡ false }
        ensures live { self.new.live ≡ true }
        ensures service { self.new.held.service ≡ service.value }
    {
        mem::forget(mem::replace(self, Handle::of(service)));
    }
}

/// That a handle may go to another thread.
pub(crate) fn crosses<T: Send>(_value: &T) {}

/// The same of this type.
pub(crate) fn handle_crosses(handle: &Handle) {
    crosses(handle)
}
