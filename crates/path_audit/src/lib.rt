//! The audit of a journal, in one segment or in several: whether each of its replies was owed by the lines before it, and none is
//! `NoRoom`.
//!
//! The audit replays the journal line by line, with semaphores, activations and contents of its own. It asks no system and no
//! device.
#![tactic(auto)]

mod activations;
mod auditor;
mod journals;
mod replay;
mod resources;

pub use auditor::{AuditFault, Auditor, Examined, JudgeFault, Wrong};
pub use journals::{SegmentsVerdict, Verdict, audit, audit_segments};
