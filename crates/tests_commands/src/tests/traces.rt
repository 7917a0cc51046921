//! The tests of streams and traces.

mod behind;
mod bytes;
mod cut;
mod devices;
mod endings;
mod failing_traces;
mod faults;
mod input;
mod reports;
mod trace;
mod whole;
mod writers;
