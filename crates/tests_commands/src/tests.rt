//! The tests of commands that make, check and follow attempts.

mod commands;
mod follows;
mod traces;
