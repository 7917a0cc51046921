//! Whether the text of a journal is sound, in one file or in several.
#![tactic(auto)]

mod audit;
mod files;

pub use audit::{audit_bytes, audit_files, audit_to, verdict_on};
pub use files::{FilesFault, JournalFile, Segments, name_of, read_segments, tell_of_file};
