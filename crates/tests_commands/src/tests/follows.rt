//! The tests of follows.

mod ends;
mod failing;
mod follows;
mod readers;
mod stored;
