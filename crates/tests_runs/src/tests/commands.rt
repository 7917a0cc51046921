//! The tests of runs from bytes to bytes.

mod memory;
mod own;
mod refused;
mod runs;
