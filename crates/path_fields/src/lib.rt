//! Texts of fields: where they are cut, and the numbers that they begin with.
#![tactic(auto)]

mod digits;
mod split;

pub use digits::number;
pub use split::{after_line, at_end, cut, strip, until};
