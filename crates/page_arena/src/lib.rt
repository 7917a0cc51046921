//! An allocator over memory that a host hands in: each block is the front of what is left, and none is used again.
#![tactic(auto)]

mod arena;
mod memory;

pub use arena::Arena;
pub use memory::Memory;
