//! Admission: whether an operation may start under all paths of a declaration.
#![tactic(auto)]

mod compiling;
mod gate;

pub use compiling::compile;
pub use gate::Gate;
