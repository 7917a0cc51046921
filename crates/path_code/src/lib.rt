//! Compiles paths: from the trees of a declaration to the semaphores of its paths, and to what each operation does to them.
//!
//! [`translate`] substitutes from the root of each tree downwards (Campbell and Habermann, 1974); [`listing`] shows the result.
//! `specs/PathCodes.antt` defines the code of a path, `specs/Listing.antt` the text that shows it. [`lister`] has the parts of that
//! text for other listings.
#![tactic(auto)]

mod code;
pub mod lister;
mod substitution;
mod terms;
mod translator;

pub use code::{Code, PathCode};
pub use lister::listing;
pub use terms::{Epilogue, OpCode, Prologue};
pub use translator::translate;
