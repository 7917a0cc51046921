//! Why a service can't be opened or go on behind a journal, why a text has no verdict, and why no schedules are searched.

ghost use Rattle.std.specs.Prelude.{◌≡◌};
ghost use Rattle.path_service.specs.declared.fault.ServiceFault.TheVariants as faults;
ghost use Rattle.path_service.specs.declared.fault.JournalFault.TheVariants as journals;
ghost use Rattle.path_service.specs.declared.fault.OrderFault.TheVariants as orders;
ghost use Rattle.path_service.specs.declared.fault.ExploreRefusal.TheVariants as searches;
ghost use Rattle.path_service.specs.Services.{as_refusal};

use path_lex::DeclFault;
use path_lines::TextFault;
use path_model::{OutOfMemory, Reply};
use path_script::ScriptFault;
use thiserror::Error;

/// Why a service can't be opened.
#[derive(Clone, Copy, Debug, PartialEq, Eq, Error)]
pub enum ServiceFault {
    /// The text isn't a declaration.
    #[error("{0}")]
    Declaration(DeclFault),
    /// The room is 0 or above 1,048,576 lines.
    #[error("bad room")]
    BadRoom,
    /// An allocation failed.
    #[error("out of memory")]
    OutOfMemory,
}

impl From<OutOfMemory> for ServiceFault {
    ghost from_gives = { λ _ e. e ≡ faults.OutOfMemory };

    fn from(_error: OutOfMemory) -> ServiceFault {
        ServiceFault::OutOfMemory
    }
}

/// Why there is no text of a journal.
#[derive(Clone, Copy, Debug, PartialEq, Eq, Error)]
pub enum JournalFault {
    /// No lines are kept.
    #[error("no journal")]
    NotKept,
    /// An allocation failed.
    #[error("out of memory")]
    OutOfMemory,
}

impl From<OutOfMemory> for JournalFault {
    ghost from_gives = { λ _ e. e ≡ journals.OutOfMemory };

    fn from(_error: OutOfMemory) -> JournalFault {
        JournalFault::OutOfMemory
    }
}

/// Why it isn't told who comes next.
#[derive(Clone, Copy, Debug, PartialEq, Eq, Error)]
pub enum OrderFault {
    /// The operation isn't declared.
    #[error("unknown operation")]
    UnknownOperation,
    /// No start is admitted any more: 4,294,967,295 were.
    #[error("no room")]
    NoRoom,
    /// An allocation failed.
    #[error("out of memory")]
    OutOfMemory,
}

impl From<OutOfMemory> for OrderFault {
    ghost from_gives = { λ _ e. e ≡ orders.OutOfMemory };

    fn from(_error: OutOfMemory) -> OrderFault {
        OrderFault::OutOfMemory
    }
}

/// Why a text has no verdict.
#[derive(Clone, Copy, Debug, PartialEq, Eq, Error)]
pub enum AuditRefusal {
    /// The first text isn't a declaration.
    #[error("declaration: {0}")]
    Declaration(DeclFault),
    /// The second text isn't a journal.
    #[error("journal: {0}")]
    Journal(TextFault),
    /// The journal names no room, and the room that is given is 0 or above 1,048,576 lines.
    #[error("bad room")]
    BadRoom,
    /// An allocation failed.
    #[error("out of memory")]
    OutOfMemory,
}

/// Why the schedules of a script aren't searched.
#[derive(Clone, Copy, Debug, PartialEq, Eq, Error)]
pub enum ExploreRefusal {
    /// The first text isn't a declaration.
    #[error("declaration: {0}")]
    Declaration(DeclFault),
    /// The second text isn't a script.
    #[error("script: {0}")]
    Script(ScriptFault),
    /// An allocation failed.
    #[error("out of memory")]
    OutOfMemory,
}

impl From<OutOfMemory> for ExploreRefusal {
    ghost from_gives = { λ _ e. e ≡ searches.OutOfMemory };

    fn from(_error: OutOfMemory) -> ExploreRefusal {
        ExploreRefusal::OutOfMemory
    }
}

/// Why no service goes on behind a journal.
#[derive(Clone, Copy, Debug, PartialEq, Eq, Error)]
pub enum ResumeRefusal {
    /// The first text isn't a declaration.
    #[error("declaration: {0}")]
    Declaration(DeclFault),
    /// The second text isn't a journal.
    #[error("journal: {0}")]
    Journal(TextFault),
    /// The room is 0 or above 1,048,576 lines.
    #[error("bad room")]
    BadRoom,
    /// The reply of this line, counted from 0, isn't owed by the lines before it: this one is.
    #[error("wrong line {0}")]
    WrongLine(usize, Reply),
    /// An allocation failed.
    #[error("out of memory")]
    OutOfMemory,
}

impl From<ServiceFault> for ResumeRefusal {
    ghost from_gives = { λ fault e. e ≡ as_refusal fault };

    fn from(fault: ServiceFault) -> ResumeRefusal {
        match fault {
            ServiceFault::Declaration(fault) => ResumeRefusal::Declaration(fault),
            ServiceFault::BadRoom => ResumeRefusal::BadRoom,
            ServiceFault::OutOfMemory => ResumeRefusal::OutOfMemory,
        }
    }
}
