//! Tests of desks and runs. The crate has no other code, so that no library is proved twice.
#![tactic(auto)]

#[cfg(test)]
mod tests;
