//! What commands share: streams of bytes in and out, why a command failed, its exit status, the program's own devices, and the text of a
//! report.
#![tactic(auto)]

mod fault;
mod input;
mod own;
mod put;
mod report;
mod status;
mod whole_input;

pub use fault::{Fault, tell};
pub use input::read_all;
pub use own::{own_devices, own_openings, read_own};
pub use put::{put_ending, put_text};
pub use report::write_report;
pub use status::Status;
pub use whole_input::whole;
