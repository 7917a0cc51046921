//! Traces: attempts in, each with its reply out, and a report of the system at their end.
#![tactic(auto)]

mod behind;
mod trace;

pub use behind::trace_behind;
pub use trace::{ROOM, trace_bytes, trace_to};
