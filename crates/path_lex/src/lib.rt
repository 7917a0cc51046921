//! Cuts the text of a declaration into tokens.
//!
//! [`tokens`] returns the one list of tokens that the text is made of, or the first fault. `specs/Spelling.antt` defines which bytes
//! are which tokens.
#![tactic(auto)]

mod fault;
mod lex;
mod token;

pub use fault::DeclFault;
pub use lex::{is_name, tokens};
pub use token::{Reserved, Sign, Token};
