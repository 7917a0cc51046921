//! The tests of texts.

mod attempts;
mod declaration;
mod fields;
mod journal_faults;
mod journals;
mod lines;
mod stops;
mod verbs;
