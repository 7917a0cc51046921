//! The text of the head with which a file of a journal begins: the state behind which its lines come.
#![tactic(auto)]

mod fact;
mod front;
mod hash;
mod head;
mod number;
mod writer;

pub use fact::{Contained, Fact, Stand};
pub use front::{Counts, Front};
pub use hash::Sum;
pub use head::{Head, HeadFault, read_head};
pub use writer::write_head;
