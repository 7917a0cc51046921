//! Where a text is at fault that a command refused, and which line of a journal is wrong: what people read below the command's own line.
#![tactic(auto)]

mod place;
mod source;

pub use place::tell_place;
pub use source::{Source, Subject};
