//! One step: the reply that is owed to an attempt, and what it leaves, over whoever keeps what is live and whoever serves a use.
#![tactic(auto)]

mod devices;
mod live;
mod moves;
mod owing;

pub use devices::Devices;
pub use live::Live;
pub use moves::answer;
pub use owing::owed;
