//! The tests of desks.

mod memory;
mod own;
mod settling;
mod threads;
