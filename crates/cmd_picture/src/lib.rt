//! Pictures of journals, as SVG.
#![tactic(auto)]

mod figure;
mod layout;
mod picture;
mod shapes;

pub use figure::{LINES, draw};
pub use picture::{picture_bytes, picture_journal_bytes};
