//! The tests of runs.

mod buffers;
mod dropped;
mod ends;
mod giving_up;
mod memory;
mod own;
mod stopped;
mod together;
