//! The tests of desks and runs.

mod commands;
mod running;
mod workers;
