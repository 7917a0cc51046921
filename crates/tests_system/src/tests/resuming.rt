//! The tests of lines that are taken over.

mod failing;
mod forged;
mod going;
mod memory;
mod prefixes;
