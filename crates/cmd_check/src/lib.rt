//! What is written of a declaration: its print, or what it is compiled to.
#![tactic(auto)]

mod check;
mod compile;
mod listings;
mod output;

pub use check::check_to;
pub use compile::compile_to;
