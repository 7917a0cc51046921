//! Processes that run the steps of a script on one system, each in a thread of its own.
#![tactic(auto)]

mod begun;
mod enter;
mod entered;
mod lines;
mod monitor;
mod outcome;
mod running;
mod step;
mod turnstile;
mod work;

pub use outcome::{End, Ended, Outcome, RunFault};
pub use running::{run, run_with_receipts};
pub use turnstile::{AlwaysOpen, Turnstile};
