//! Attempts from a reader: each is answered, and the answer flushed, before the next is waited for.
#![tactic(auto)]

mod answer;
mod follow;
mod follower;
mod input;
mod keeper;
mod stop;
mod stored;

pub use follow::{follow_bytes, follow_kept, follow_to};
pub use keeper::{Forgetful, KeepFault, Keeper};
pub use stored::{Syncing, follow_stored};
