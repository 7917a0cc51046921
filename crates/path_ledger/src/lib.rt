//! The live activations of a system, in the order of their starts.
#![tactic(auto)]

mod ledger;
mod row;

pub use ledger::{EndFault, HoldFault, Ledger};
