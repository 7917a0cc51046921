//! The tests of texts: declarations, lines, journals and scripts.

mod declarations;
mod lines;
mod scripts;
