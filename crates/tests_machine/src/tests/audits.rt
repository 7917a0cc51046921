//! The tests of audits.

mod audit;
mod forged;
mod memory;
mod overlap;
mod verdict;
