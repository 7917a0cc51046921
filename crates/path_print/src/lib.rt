//! Prints declarations: from resources, operations and paths to the text that declares them.
#![tactic(auto)]

mod printer;

pub use printer::{print, push_path};
