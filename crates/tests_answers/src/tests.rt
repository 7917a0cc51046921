//! The tests of what people are told.

mod answers;
mod explanations;
mod pictures;
mod places;
