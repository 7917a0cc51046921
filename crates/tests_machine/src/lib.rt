//! Tests of the machine, orders, the devices and audits. The crate has no other code, so that no library is proved twice.
#![tactic(auto)]

#[cfg(test)]
mod tests;
