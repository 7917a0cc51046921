//! The tests of scripts.

mod declaration;
mod faults;
mod limits;
mod scripts;
