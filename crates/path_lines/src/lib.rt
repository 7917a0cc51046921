//! The texts of attempts and of the lines of a journal: each has one text, and is read from it.
#![tactic(auto)]

mod entry;
mod lines;
mod quick;
mod stop;
mod texts;

pub use entry::{FirstLine, LineFault, declared, first_entry, read_verb};
pub use lines::{REPLIES, push_line, push_operation, push_reply, push_told, spelled, write_line};
pub use quick::{Recent, next_entry, short_number, usual_front};
pub use stop::{Stop, Wanted, after, end, keyword, last, number_to, stop_at, word};
pub use texts::{LIMIT, TextFault, fault_at, read_attempts};
