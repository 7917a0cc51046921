//! The types of path expressions, and their meaning.
//!
//! The types are plain data. The specs next to them have all definitions of the subject: histories, words, bursts and the
//! behaviour of a path, the replies that a journal owes to attempts, and how semaphores keep the meaning of paths
//! (Campbell and Habermann, 1974). The laws of [`theorems`] say that the semaphores admit exactly what the words allow, and
//! what a path guarantees, in words of operations.
#![tactic(auto)]

pub mod history;
pub mod ids;
pub mod journal;
pub mod memory;
pub mod resource;
pub mod theorems;
pub mod tree;

pub use history::Event;
pub use ids::{ActId, OpId, PathId, ResId};
pub use journal::{Activation, Attempt, JournalText, Line, MOST_LINES, Reply, Verb, is_room};
pub use memory::OutOfMemory;
pub use resource::Law;
pub use tree::Expr;
