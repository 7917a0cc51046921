//! Commands as single calls: bytes in, and an answer out, for hosts that have memory and no streams.
#![tactic(auto)]

mod answer;
mod commands;

pub use answer::{Answer, SearchAnswer, TooShort};
pub use commands::{audit, check, compile, explain, explore, judge, reach, trace};
