//! Tests of journals in files and of texts that are cut anywhere, over a file in memory that may crash.
#![tactic(auto)]

mod memory;
#[cfg(test)]
mod tests;

pub use memory::MemoryFile;
