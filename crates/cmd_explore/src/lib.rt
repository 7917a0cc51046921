//! From bytes to bytes: looks at every schedule of a script, and says that all of them end done, or shows the shortest that doesn't; or
//! looks at every history of a declaration, and says which operations never begin, or shows how a group of them freezes that paths join.
#![tactic(auto)]

mod explore;
mod reach;
mod searched;
mod shared;
mod standings;
mod telling;
mod words;

pub use explore::{explore_bytes, explore_to};
pub use reach::{reach_bytes, reach_to};
pub use searched::Searched;
pub use shared::shares_operations;
pub use standings::standings_text;
pub use telling::{tell_undecided, tell_wrong};
