//! Takes the parts of a text.

ghost use Rattle.std.specs.Prelude.{◌≡◌, [], ◌∷◌, IfOk, IfErr};
ghost use Rattle.path_read.specs.Inner.Parts.{saying};
ghost use Rattle.path_read.specs.Inner.Building.{drafted, nothing};
ghost use Rattle.path_read.specs.Inner.Taking.{sound, broken, taken, Follows};

use crate::draft::Draft;
use crate::part::Part;
use path_lex::DeclFault;
use std::alloc::Allocator;

/// A declaration under construction, up to the first part that breaks a rule.
#[derive(Drop)]
pub(crate) struct Intake<A: Allocator + Copy> {
    pub(crate) alloc: A,
    pub(crate) draft: Draft<A>,
    /// Why the first part that wasn't allowed was refused.
    pub(crate) fault: Option<DeclFault>,
}

impl<A: Allocator + Copy> Intake<A> {
    /// An intake that has taken nothing.
    pub(crate) fn new(alloc: A) -> Intake<A>
        ensures { taken result ≡ sound nothing }
    {
        Intake {
            alloc,
            draft: Draft::new(alloc),
            fault: None,
        }
    }

    /// Takes the part whose token is at this offset. After a part was refused, takes no other.
    pub(crate) fn take(&mut self, part: Part<'_>, at: u32)
        ensures { Follows (saying part.entry ∷ []) (taken self.old) (taken self.new) }
    {
        if self.fault.is_some() {
            return;
        }
        if let Err(fault) = self.draft.take(self.alloc, part, at) {
            self.fault = Some(fault);
        }
    }

    /// The draft of all parts, or the fault of the first that was refused.
    pub(crate) fn finish(self) -> Result<Draft<A>, DeclFault>
        ensures ok { IfOk result (λ draft. taken self ≡ sound (drafted draft)) }
        ensures err { IfErr result (λ e. taken self ≡ broken e) }
    {
        match self.fault {
            Some(fault) => Err(fault),
            None => Ok(self.draft),
        }
    }
}
