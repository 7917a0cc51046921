//! The tests of commands.

mod audits;
mod check;
mod commands;
mod compile;
mod refusals;
mod segments;
