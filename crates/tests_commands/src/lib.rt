//! Tests of commands that make, check and follow attempts. The crate has no other code, so that no library is proved twice.
#![tactic(auto)]

#[cfg(test)]
mod tests;
