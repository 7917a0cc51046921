//! The devices behind the resources of a declaration.
//!
//! A [`Device`] follows a law: it is a cell, a tally or a queue, or the caller's own type. A [`Shelf`] holds one for each resource.
#![tactic(auto)]

mod boxed;
mod cell;
mod device;
mod own;
mod queue;
mod shelf;
mod tally;

pub use cell::Cell;
pub use device::{ActFault, Device};
pub use own::OwnDevice;
pub use queue::Queue;
pub use shelf::{Shelf, ShelfFault, shelf_fault};
pub use tally::Tally;
