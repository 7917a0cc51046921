//! What several crates of tests use: an allocator that refuses one request, and the loop that refuses each in turn; devices; writers;
//! replies; texts; how calls end.
#![tactic(auto)]

mod devices;
mod endings;
mod refusing;
mod replies;
mod texts;
mod turns;
mod writers;

pub use devices::{Counted, FailingTally};
pub use endings::{Ending, in_bytes};
pub use refusing::Refusing;
pub use replies::WITHOUT_NUMBER;
pub use texts::{LONE_BURST, LONE_BURST_COMPILED};
pub use turns::{count_refusals, refuse_in_turn};
pub use writers::{FailingWriter, FullWriter};
