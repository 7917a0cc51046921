//! The tests of pictures.

mod pictures;
mod refusals;
