//! What people ask of a declaration as it stands: which paths forbid a start, what a path lets begin next, what of it is in progress, and
//! whether a resource is stuck for ever; and all this in words, for a declaration and for attempts under it.
//!
//! Each call about a gate answers as the words of the paths do at the gate's history. All paths are answered for, also those that the
//! gate left out because an earlier path has their tree.
#![tactic(auto)]

mod alike;
mod behind;
mod declared;
mod explain;
mod faults;
mod held;
mod journal;
mod names;
mod refusal;
mod room;
mod standing;
mod stuck;
mod why;
mod words;

pub use behind::explain_behind;
pub use explain::{explain_attempts, explain_declaration};
pub use faults::FileNames;
pub use journal::explain_journal;
pub use refusal::{forbidding, is_forbidding, may_begin, underway};
pub use room::{FullJournal, full_journal};
pub use stuck::is_stuck;
