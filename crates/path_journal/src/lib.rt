//! The texts of journals: lines with their replies, and in versions 2 and 3 a first line that names the room.
#![tactic(auto)]

mod cut;
mod head;
mod journal;
mod record;
mod reply;
mod version;
mod writer;

pub use cut::{read_cut, version_in};
pub use head::{write_head, write_kept_head};
pub use journal::{read_journal, stop_in};
pub use version::{CutText, Version};
pub use writer::{push_kept_line, write_journal};
