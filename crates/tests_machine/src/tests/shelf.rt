//! The tests of devices and shelves.

mod laws;
mod remembering;
mod shelf;
