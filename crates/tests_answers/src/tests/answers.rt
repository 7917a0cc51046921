//! The tests of answers.

mod answers;
mod buffers;
mod searches;
