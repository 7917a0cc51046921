//! Journals in files: a line that was synced is found after a crash at any moment.
#![tactic(auto)]

mod device;
mod fault;
mod recovery;
mod store;
pub mod theorems;

pub use device::{Device, DeviceFault};
pub use fault::StoreFault;
pub use store::{Opened, Store};
