//! Trimming: which parts of the compiled paths are useless, and what is left without them.
//!
//! [`trim`] removes each mutex; the semaphore and the counter of braces that are a whole path; and each path whose tree an earlier
//! path has. What is kept keeps its number. The trimmed table admits the same starts as the whole one, and names the same path for
//! a start that it refuses.
#![tactic(auto)]

mod equal;
mod lean;
mod left;
mod listing;
mod table;
mod trimming;

pub use lean::{Lean, kept, removed};
pub use listing::lean_listing;
pub use table::{LeanOp, LeanPath, Removed};
pub use trimming::trim;
