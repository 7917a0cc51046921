//! The tests of declarations.

mod braces;
mod constant;
mod decl;
mod equal;
mod faults;
mod hostile;
mod laws;
mod model;
mod turns;
