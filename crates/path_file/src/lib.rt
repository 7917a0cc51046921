//! Files of the operating system, as stores see them.
#![tactic(auto)]

mod file;

pub use file::{FileDevice, FileFault};
