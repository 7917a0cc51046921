//! A system that lasts: from the bytes of a declaration to steps, rotations and texts, over the program's own devices.
//!
//! It is what a caller in another language needs of a system: it is opened from a text, it has no type parameter, and after its
//! opening only the calls that make a text allocate. It keeps its lines or, for a caller that wants no journal, none of them.
#![tactic(auto)]

mod auditing;
mod exploring;
mod fault;
mod lines;
mod ordering;
mod resume;
mod service;
mod taking;
mod texts;

pub use auditing::audit_text;
pub use exploring::{Found, WrongSchedule, explore_text};
pub use fault::{
    AuditRefusal, ExploreRefusal, JournalFault, OrderFault, ResumeRefusal, ServiceFault,
};
pub use service::Service;
pub use taking::TakenText;
