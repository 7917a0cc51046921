//! What a desk needs of the system that its threads share.

ghost use Rattle.std.specs.Prelude.{◌≡◌};
ghost use Rattle.path_model.specs.declared.journal.Reply.TheVariants as replies;
ghost use Rattle.path_model.specs.Asked.{resource_asked};
ghost use Rattle.path_model.specs.Journals.{with_line};
ghost use Rattle.path_model.specs.Segments.{OwedBehind, joined};
ghost use Rattle.path_system.specs.Accounts.{Account, HasFailed, IsSystem, StayBut, all_lines};

use path_model::{Attempt, Line, Reply};
use path_shelf::Device;
use path_system::System;
use std::alloc::Allocator;

/// What a desk can share: it takes one attempt after another and keeps a journal of them, as a [`System`] does.
///
/// Contracts see its `account`, which for a system is what they see of the system itself.
pub trait Steps: Drop {
    ghost account: { Self → Account };

    /// All lines since the last rotation, in the order of the steps.
    fn journal(&self) -> &[Line]
        ensures value { result.now ≡ (account self.now).journal }
        ensures system { IsSystem (account self.now) };

    /// Makes one attempt of a worker, as [`System::step`] says.
    fn step(&mut self, worker: u32, attempt: Attempt) -> Reply
        ensures owed { OwedBehind (account self.old).declaration (account self.old).room (account self.old).openings
            (joined (account self.old).earlier) (account self.old).journal worker attempt result }
        ensures journal { account self.new ≡ record (account self.old) {
          journal = with_line (account self.old).journal worker attempt result;
          failures = (account self.new).failures;
        } }
        ensures failures { StayBut (resource_asked (account self.old).declaration (all_lines (account self.old)) attempt result)
            (account self.old).failures (account self.new).failures }
        ensures failed { (result ≡ replies.DeviceFailed)
            → HasFailed (resource_asked (account self.old).declaration (all_lines (account self.old)) attempt result)
            (account self.old).failures (account self.new).failures };
}

impl<D: Device, A: Allocator + Copy> Steps for System<D, A> {
    ghost account = { λ s. s };

    fn journal(&self) -> &[Line] {
        System::journal(self)
    }

    fn step(&mut self, worker: u32, attempt: Attempt) -> Reply {
        System::step(self, worker, attempt)
    }
}
