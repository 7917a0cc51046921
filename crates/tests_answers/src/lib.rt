//! Tests of what people are told. The crate has no other code, so that no library is proved twice.
#![tactic(auto)]

#[cfg(test)]
mod tests;
