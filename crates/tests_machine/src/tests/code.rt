//! The tests of translating and trimming.

mod code;
mod listing;
mod trim;
