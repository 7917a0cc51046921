//! Systems that go on behind journals in files.
#![tactic(auto)]

mod behind;
mod taking;

pub use behind::{Behind, BehindFault, read_behind, tell_behind};
pub use taking::Place;
