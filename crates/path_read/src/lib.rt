//! Reads declarations: from bytes to resources, operations and paths.
//!
//! [`read`] returns a [`Decl`](path_decl::Decl) only if the text is a declaration; any fault but `OutOfMemory` means that it isn't
//! one. That the first fault is named is proved of bad bytes, and of words and numbers past their limits. path_decl's
//! `specs/Text.antt` defines which bytes are a declaration.
#![tactic(auto)]

mod ahead;
mod draft;
mod grammar;
mod intake;
mod law;
mod numeral;
mod outline;
mod part;
mod reader;
pub mod theorems;

pub use path_lex::DeclFault;
pub use reader::{read, read_constant};
