//! A desk: one system shared by threads, with a receipt for each line of its journal.
//!
//! Each thread holds a [`Pass`]. An attempt is one step of the system under the desk's lock; its line leaves a receipt in the pass.
//! At the end [`Desk::settle`] compares the receipts of all passes with the journal, line by line.
#![tactic(auto)]

mod answer;
mod closed_pass;
mod closing;
mod copy;
mod desk;
mod desk_name;
mod merge;
mod order;
mod own_lines;
mod pass;
mod settle;
mod shared;
mod steps;

pub use answer::{Answer, Receipt};
pub use closed_pass::ClosedPass;
pub use closing::{Closed, settle_own};
pub use desk::Desk;
pub use desk_name::DeskName;
pub use pass::Pass;
pub use settle::{SettleFault, Settled};
pub use shared::SharedSystem;
pub use steps::Steps;
