//! Scripts: the steps of processes, and the texts of scripts.
#![tactic(auto)]

mod fault;
mod line;
mod script;
mod steps;
mod texts;

pub use fault::ScriptFault;
pub use line::{Form, read_form};
pub use script::{Process, Script, Step};
pub use texts::{LIMIT, read_script};
