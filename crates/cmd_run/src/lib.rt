//! From bytes to bytes: runs the processes of a script, writes the journal of the run, and says how each process ended.
#![tactic(auto)]

mod ends;
mod run;

pub use run::{run_bytes, run_to};
