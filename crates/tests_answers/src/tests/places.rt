//! The tests of located faults.

mod declarations;
mod limits;
mod lines;
mod names;
mod placed;
mod told;
